//! The constants that formulas are made of.
ghost use Rattle.std.specs.Prelude.{◌≡◌, ◌∷◌, ◌++◌, [], None, bytes_eq, false, IfErr, IfOk, OnOk};
ghost use Rattle.std.specs.Map.{lookup};
ghost use Rattle.hol_types.specs.Ty.{BoolTy};
ghost use Rattle.hol_types.specs.TypeStore.{text_of, type_tree};
ghost use Rattle.hol_terms.specs.TermStore.{Keeps};
ghost use Rattle.goal_text.specs.ItemsIn.{HasDeclared};
ghost use Rattle.first_form.specs.Source.{is_declared};
ghost use Rattle.first_form.specs.Lexicon as lexicons;
ghost use Rattle.first_form.specs.Lexicon.{IsLexicon, IsNumberOf};
ghost use Rattle.hol_terms.specs.Constants.{false_tm, not_tm, imp_tm};

use crate::failure::FormFailure;
use crate::made::{constant, type_of, typed};
use goal_text::Declared;
use hol_terms::{Base, Node, TermId, Terms};
use hol_types::TypeNode;
use indexmap::IndexMap;
use std::alloc::{AllocError, Global};
use std::marker::Model;

/// Constants by their names, in the order in which they were declared.
pub struct Constants {
    numbers: IndexMap<Vec<u8>, TermId>,
}

impl Drop for Constants {
    fn drop(self) {
        let Constants { numbers: _ } = self;
    }
}

impl Model for Constants {
    ghost use Rattle.std.specs.Prelude.{List, ℕ, map};
    ghost use Rattle.std.specs.Coded.{coded_list, coded×, coded_ℕ};

    ghost Value = { List (List ℕ × ℕ) };

    ghost coded = { coded_list (coded× (coded_list coded_ℕ) coded_ℕ) };

    ghost view = { λ c. map (λ e. (e.0.items, e.1)) c.numbers.entries };
}

impl Constants {
    pub fn new(alloc: Global) -> Constants
        ensures { result ≡ [] }
    {
        Constants {
            numbers: IndexMap::new(alloc),
        }
    }

    /// The constant of a name.
    pub fn find(&self, name: &[u8]) -> Option<TermId>
        ensures { result ≡ lookup (bytes_eq name.now) self.now }
    {
        self.numbers.get(name).copied()
    }

    /// Declares a constant whose name isn't declared.
    pub fn push(&mut self, name: Vec<u8>, constant: TermId) -> Result<(), AllocError>
        requires { lookup (bytes_eq name.items) self.old ≡ None }
        ensures { OnOk result (self.new ≡ self.old ++ (name.items, constant) ∷ []) }
    {
        self.numbers.insert(name, constant)?;
        Ok(())
    }
}

/// The constant `false`.
#[tactic(auto, using(hol_terms::proofs::KeepsLemmas::keeps_trans))]
fn falsity(base: &mut Base) -> Result<TermId, FormFailure>
    ensures number { IfOk result (λ t. IsNumberOf base.new t false_tm) }
    ensures memory { IfErr result (λ e. e ≡ FormFailure.Memory) }
    ensures keeps { Keeps base.old base.new }
{
    let bool = type_of(base, TypeNode::Bool)?;
    let t = constant(base, b"false".as_slice(), bool)?;
    Ok(t)
}

/// The constant `not`.
#[tactic(auto, using(hol_terms::proofs::KeepsLemmas::keeps_trans))]
fn negation(base: &mut Base) -> Result<TermId, FormFailure>
    ensures number { IfOk result (λ t. IsNumberOf base.new t not_tm) }
    ensures memory { IfErr result (λ e. e ≡ FormFailure.Memory) }
    ensures keeps { Keeps base.old base.new }
{
    let bool = type_of(base, TypeNode::Bool)?;
    let unary = type_of(base, TypeNode::Fun(bool, bool))?;
    let t = constant(base, b"not".as_slice(), unary)?;
    Ok(t)
}

/// The constant `=>`.
#[tactic(auto, using(hol_terms::proofs::KeepsLemmas::keeps_trans))]
fn implication(base: &mut Base) -> Result<TermId, FormFailure>
    ensures number { IfOk result (λ t. IsNumberOf base.new t imp_tm) }
    ensures memory { IfErr result (λ e. e ≡ FormFailure.Memory) }
    ensures keeps { Keeps base.old base.new }
{
    let bool = type_of(base, TypeNode::Bool)?;
    let unary = type_of(base, TypeNode::Fun(bool, bool))?;
    let binary = type_of(base, TypeNode::Fun(bool, unary))?;
    let t = constant(base, b"=>".as_slice(), binary)?;
    Ok(t)
}

/// The constants of formulas.
pub struct Lexicon {
    pub falsity: TermId,
    pub negation: TermId,
    pub implication: TermId,
    pub constants: Constants,
}

impl Drop for Lexicon {
    fn drop(self) {
        let Lexicon {
            falsity: _,
            negation: _,
            implication: _,
            constants: _,
        } = self;
    }
}

impl Lexicon {
    /// The constants of formulas, none of which is declared yet.
    #[tactic(auto, using(hol_terms::proofs::KeepsLemmas::keeps_trans, crate::proofs::LexiconLemmas::number_kept))]
    pub fn new(base: &mut Base) -> Result<Lexicon, FormFailure>
        ensures lexicon { IfOk result (IsLexicon base.new) }
        ensures none { IfOk result (λ l. l.constants ≡ []) }
        ensures memory { IfErr result (λ e. e ≡ FormFailure.Memory) }
        ensures keeps { Keeps base.old base.new }
    {
        let falsity = falsity(base)?;
        let negation = negation(base)?;
        let implication = implication(base)?;
        Ok(Lexicon {
            falsity,
            negation,
            implication,
            constants: Constants::new(base.allocator()),
        })
    }

    /// Adds a constant of type Bool whose name isn't declared.
    #[tactic(auto, using(hol_terms::proofs::KeepsLemmas::keeps_trans, crate::proofs::LexiconLemmas::lexicon_kept, crate::proofs::LexiconLemmas::absent_found))]
    pub fn declare(&mut self, base: &mut Base, declared: Declared) -> Result<(), FormFailure>
        requires lexicon { IsLexicon base.old self.old }
        requires declared { HasDeclared base.old declared }
        requires proposition { type_tree base.old.types declared.ty ≡ BoolTy }
        requires absent { is_declared (lexicons.names_of self.old.constants) (text_of base.old.types declared.name) ≡ false }
        ensures lexicon { OnOk result (IsLexicon base.new self.new) }
        ensures names { OnOk result (lexicons.names_of self.new.constants ≡ lexicons.names_of self.old.constants ++ text_of base.old.types declared.name ∷ []) }
        ensures memory { IfErr result (λ e. e ≡ FormFailure.Memory) }
        ensures keeps { Keeps base.old base.new }
    {
        let name = Vec::from_slice(base.allocator(), base.text(declared.name))?;
        let t = typed(base, Node::Const(declared.name, declared.ty))?;
        self.constants.push(name, t)?;
        Ok(())
    }

    /// Whether a name is declared.
    #[tactic(auto, using(crate::proofs::LexiconLemmas::declared_found))]
    pub fn is_declared(&self, name: &[u8]) -> bool
        ensures { result ≡ is_declared (lexicons.names_of self.now.constants) name.now }
    {
        self.constants.find(name).is_some()
    }

    /// The constant that is so written: with `$` behind its name.
    fn constant(&self, text: &[u8]) -> Option<TermId>
        ensures { result ≡ lexicons.number_of self.now.constants text.now }
    {
        match text.strip_suffix(b"$".as_slice()) {
            Some(name) => self.constants.find(name),
            None => None,
        }
    }

    /// The term that an atom is read as.
    pub fn atom(&self, text: &[u8]) -> Option<TermId>
        ensures { result ≡ lexicons.atom_number self.now text.now }
    {
        if text == b"false".as_slice() {
            Some(self.falsity)
        } else {
            self.constant(text)
        }
    }
}
