//! Bound variables.
ghost use Rattle.std.specs.Prelude.{◌≡◌, ◌∷◌, [], List, ℕ, MatchOption, OnOk};
ghost use Rattle.goal_text.specs.Hiding.{innermost, newest_by};

use crate::names::Names;
use hol_types::TypeId;
use std::alloc::{AllocError, Global};
use std::marker::Model;

/// Where a variable stands, counted from the outermost, and its type.
#[derive(Clone, Copy, Debug)]
pub struct Spot {
    pub place: u32,
    pub ty: TypeId,
}

/// A variable with its type, and the variable of its name that it hides.
#[derive(Drop)]
pub struct Bound {
    pub name: Vec<u8>,
    pub ty: TypeId,
    pub hidden: Option<Spot>,
}

/// The variables that are bound at a place of the text. The innermost of a name is found by the name's hash.
pub struct Binders {
    alloc: Global,
    /// The outermost first.
    stack: Vec<Bound>,
    /// The innermost variable of each name.
    newest: Names<Option<Spot>>,
}

impl Drop for Binders {
    fn drop(self) {
        let Binders {
            alloc: _,
            stack: _,
            newest: _,
        } = self;
    }
}

impl Model for Binders {
    ghost use Rattle.std.specs.Prelude.{List, ℕ, map, reverse, length, ◌<◌, ◌^◌};
    ghost use Rattle.goal_text.specs.Hiding.{bound_in, IsNewest, Hide};

    ghost Value = { List (List ℕ × ℕ) };

    ghost view = { λ b. map bound_in (reverse b.stack.items) };

    ghost invariant = { λ b. IsNewest b.newest (reverse b.stack.items) × Hide (reverse b.stack.items) × (length b.stack.items < 2 ^ 32) };
}

/// The variable that a name has, if it has one.
fn newest_of(found: Option<Option<Spot>>) -> Option<Spot>
    ensures { result ≡ newest_by found }
{
    match found {
        Some(spot) => spot,
        None => None,
    }
}

impl Binders {
    /// No variables.
    pub fn new(alloc: Global) -> Binders
        ensures { result ≡ [] }
    {
        Binders {
            alloc,
            stack: Vec::new(alloc),
            newest: Names::new(alloc),
        }
    }

    /// The innermost variable of a name: how many stand within it, and its type.
    pub fn find(&self, name: &[u8]) -> Option<(u32, TypeId)>
        ensures { result ≡ innermost self.now name.now }
    {
        match newest_of(self.newest.find(name)) {
            Some(spot) => Some((self.stack.len() as u32 - 1 - spot.place, spot.ty)),
            None => None,
        }
    }

    /// Binds a variable within all others.
    pub fn bind(&mut self, name: &[u8], ty: TypeId) -> Result<(), AllocError>
        ensures { OnOk result (self.new ≡ (name.now, ty) ∷ self.old) }
    {
        let place = self.stack.len();
        if place >= 0xffff_ffff {
            return Err(AllocError);
        }
        let hidden = newest_of(self.newest.find(name));
        let own = Vec::from_slice(self.alloc, name)?;
        let key = Vec::from_slice(self.alloc, name)?;
        self.stack.push(Bound {
            name: own,
            ty,
            hidden,
        })?;
        let spot = Spot {
            place: place as u32,
            ty,
        };
        match self.newest.set(key, Some(spot)) {
            Ok(()) => Ok(()),
            Err(e) => {
                self.stack.pop();
                Err(e)
            }
        }
    }

    /// Takes the innermost variable away, and gives its type. Where there is none, nothing changes.
    pub fn leave(&mut self) -> Option<TypeId>
        ensures { MatchOption result ((self.old ≡ []) × (self.new ≡ [])) (λ ty. (name : List ℕ) × (self.old ≡ (name, ty) ∷ self.new)) }
    {
        match self.stack.pop() {
            Some(bound) => {
                let Bound { name, ty, hidden } = bound;
                match self.newest.set(name, hidden) {
                    Ok(()) => Some(ty),
                    Err(_) => unreachable!(),
                }
            }
            None => None,
        }
    }
}
