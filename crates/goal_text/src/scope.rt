//! What names stand for at a place of the text.
ghost use Rattle.std.specs.Prelude.{◌≡◌, [], None, Some, bytes_eq, IfSome, MatchOption};
ghost use Rattle.std.specs.Map.{lookup};
ghost use Rattle.hol_types.specs.TypeStore.{HasType, type_tree};
ghost use Rattle.goal_text.specs.Names.{bound_to};
ghost use Rattle.goal_text.specs.Scope.{AreConstructors, AreConstants, AreBound, IsConstructor, IsConstant, binders_in, consts_in, types_in};

use crate::binders::Binders;
use crate::names::Names;
use hol_terms::Base;
use hol_types::{NameId, TypeId};
use std::alloc::Global;

/// A declared type constructor.
#[derive(Clone, Copy, Debug)]
pub struct Constructor {
    pub name: NameId,
    pub arity: u32,
}

/// A declared constant, and whether its type has no type variables.
#[derive(Clone, Copy, Debug)]
pub struct Constant {
    pub name: NameId,
    pub ty: TypeId,
    pub monomorphic: bool,
}

/// The declared names and the bound variables.
pub struct Scope {
    pub types: Names<Constructor>,
    pub consts: Names<Constant>,
    pub binders: Binders,
}

impl Drop for Scope {
    fn drop(self) {
        let Scope {
            types: _,
            consts: _,
            binders: _,
        } = self;
    }
}

impl Scope {
    /// No names.
    pub fn new(alloc: Global) -> Scope
        ensures types { result.types ≡ [] }
        ensures consts { result.consts ≡ [] }
        ensures binders { result.binders ≡ [] }
    {
        Scope {
            types: Names::new(alloc),
            consts: Names::new(alloc),
            binders: Binders::new(alloc),
        }
    }
}

/// The constructor of a name.
pub fn constructor_of(
    _base: &Base,
    constructors: &Names<Constructor>,
    name: &[u8],
) -> Option<Constructor>
    requires { AreConstructors _base.now constructors.now }
    ensures found { MatchOption result (lookup (bytes_eq name.now) (types_in constructors.now) ≡ None) (λ c. lookup (bytes_eq name.now) (types_in constructors.now) ≡ Some c.arity) }
    ensures is { IfSome result (IsConstructor _base.now name.now) }
{
    constructors.find(name)
}

/// The constant of a name.
pub fn constant_of(_base: &Base, constants: &Names<Constant>, name: &[u8]) -> Option<Constant>
    requires { AreConstants _base.now constants.now }
    ensures found { MatchOption result (lookup (bytes_eq name.now) (consts_in _base.now constants.now) ≡ None) (λ c. lookup (bytes_eq name.now) (consts_in _base.now constants.now) ≡ Some (type_tree _base.now.types c.ty)) }
    ensures is { IfSome result (IsConstant _base.now name.now) }
{
    constants.find(name)
}

/// The innermost variable of a name: how many stand within it, and its type.
pub fn variable_of(_base: &Base, binders: &Binders, name: &[u8]) -> Option<(u32, TypeId)>
    requires { AreBound _base.now binders.now }
    ensures found { MatchOption result (bound_to (binders_in _base.now binders.now) name.now ≡ None) (λ b. bound_to (binders_in _base.now binders.now) name.now ≡ Some (b.0, type_tree _base.now.types b.1)) }
    ensures there { IfSome result (λ b. HasType _base.now.types b.1) }
{
    binders.find(name)
}
