//! Formulas of the first proof form.
ghost use Rattle.std.specs.Prelude.{◌≡◌, IfOk, Some};
ghost use Rattle.hol_terms.specs.Constants.{negation, implication};
ghost use Rattle.hol_terms.specs.TermStore.{Keeps, term_tree};
ghost use Rattle.sexp.specs.Forest.{tree_at, trees_at, HasTree, IsRun};
ghost use Rattle.first_form.specs.Connectives as connectives;
ghost use Rattle.first_form.specs.Connectives.{made_by};
ghost use Rattle.first_form.specs.Formulas.{formula_of, formulas_of, implication_of, negation_of};
ghost use Rattle.goal_text.specs.Scope.{terms_at};
ghost use Rattle.goal_text.specs.Sentences.{HasSentence, HaveSentences};
ghost use Rattle.first_form.specs.Lexicon.{IsLexicon, names_of};
ghost use Rattle.first_form.specs.Read.{Gives};

use crate::failure::FormFailure;
use crate::lexicon::Lexicon;
use crate::made::typed;
use crate::tree::{atom_at, parts_at, text_at};
use hol_terms::{Base, Node, TermId, Terms};
use sexp::Forest;

/// What makes a formula of formulas.
#[derive(Clone, Copy, Debug)]
enum Connective {
    Negation,
    Implication,
}

/// The connective of a word.
fn connective_of(word: &[u8]) -> Option<Connective>
    ensures { result ≡ connectives.connective_of word.now }
{
    if word == b"not".as_slice() {
        Some(Connective::Negation)
    } else if word == b"=>".as_slice() {
        Some(Connective::Implication)
    } else {
        None
    }
}

/// The negation of a formula.
pub fn not(base: &mut Base, lexicon: &Lexicon, a: TermId) -> Result<TermId, FormFailure>
    requires lexicon { IsLexicon base.old lexicon.now }
    requires formula { HasSentence base.old a }
    ensures read { Gives (term_tree base.new) result (Some (negation (term_tree base.old a))) }
    ensures formula { IfOk result (HasSentence base.new) }
    ensures keeps { Keeps base.old base.new }
{
    let t = typed(base, Node::App(lexicon.negation, a))?;
    Ok(t)
}

/// The implication of one formula by another.
#[tactic(auto, using(hol_terms::proofs::KeepsLemmas::keeps_trans))]
fn implies(base: &mut Base, lexicon: &Lexicon, a: TermId, b: TermId) -> Result<TermId, FormFailure>
    requires lexicon { IsLexicon base.old lexicon.now }
    requires premise { HasSentence base.old a }
    requires conclusion { HasSentence base.old b }
    ensures read { Gives (term_tree base.new) result (Some (implication (term_tree base.old a) (term_tree base.old b))) }
    ensures formula { IfOk result (HasSentence base.new) }
    ensures keeps { Keeps base.old base.new }
{
    let given = typed(base, Node::App(lexicon.implication, a))?;
    let t = typed(base, Node::App(given, b))?;
    Ok(t)
}

/// The negation of the one part.
fn negated(base: &mut Base, lexicon: &Lexicon, parts: Vec<TermId>) -> Result<TermId, FormFailure>
    requires lexicon { IsLexicon base.old lexicon.now }
    requires parts { HaveSentences base.old parts.items }
    ensures read { Gives (term_tree base.new) result (negation_of (terms_at base.old parts.items)) }
    ensures formula { IfOk result (HasSentence base.new) }
    ensures keeps { Keeps base.old base.new }
{
    match parts.as_slice() {
        [a] => {
            let t = not(base, lexicon, *a)?;
            Ok(t)
        }
        _ => Err(FormFailure::Refused),
    }
}

/// The implications of two parts or more, nested to the right.
fn implied(base: &mut Base, lexicon: &Lexicon, parts: Vec<TermId>) -> Result<TermId, FormFailure>
    requires lexicon { IsLexicon base.old lexicon.now }
    requires parts { HaveSentences base.old parts.items }
    ensures read { Gives (term_tree base.new) result (implication_of (terms_at base.old parts.items)) }
    ensures formula { IfOk result (HasSentence base.new) }
    ensures keeps { Keeps base.old base.new }
{
    let mut premises = parts;
    let Some(last) = premises.pop() else {
        return Err(FormFailure::Refused);
    };
    if premises.is_empty() {
        return Err(FormFailure::Refused);
    }
    let mut t = last;
    while let Some(a) = premises.pop() {
        t = implies(base, lexicon, a, t)?;
    }
    Ok(t)
}

/// What a connective makes of the parts.
fn form(
    base: &mut Base,
    lexicon: &Lexicon,
    connective: Connective,
    parts: Vec<TermId>,
) -> Result<TermId, FormFailure>
    requires lexicon { IsLexicon base.old lexicon.now }
    requires parts { HaveSentences base.old parts.items }
    ensures read { Gives (term_tree base.new) result (made_by connective (terms_at base.old parts.items)) }
    ensures formula { IfOk result (HasSentence base.new) }
    ensures keeps { Keeps base.old base.new }
{
    match connective {
        Connective::Negation => negated(base, lexicon, parts),
        Connective::Implication => implied(base, lexicon, parts),
    }
}

/// The formula that a tree is read as, with the lexicon's constants as it writes them. Refused where it is none. A list
/// that begins with no connective is refused before its parts are read: lists that begin with `let` may nest to any depth.
#[cycle(formula)]
#[tactic(auto, unfolding(crate::specs::Formulas::formula_of), using(hol_terms::proofs::KeepsLemmas::keeps_trans, crate::proofs::LexiconLemmas::lexicon_kept))]
pub fn formula_at(
    base: &mut Base,
    lexicon: &Lexicon,
    forest: &Forest,
    i: u32,
) -> Result<TermId, FormFailure>
    requires lexicon { IsLexicon base.old lexicon.now }
    requires tree { HasTree forest.now i }
    ensures read { Gives (term_tree base.new) result (formula_of (names_of lexicon.now.constants) (tree_at forest.now i)) }
    ensures formula { IfOk result (HasSentence base.new) }
    ensures keeps { Keeps base.old base.new }
{
    if let Some(text) = atom_at(forest, i) {
        return match lexicon.atom(text) {
            Some(t) => Ok(t),
            None => Err(FormFailure::Refused),
        };
    }
    let Some((first, end)) = parts_at(forest, i) else {
        return Err(FormFailure::Refused);
    };
    let Some(second) = forest.next(first, end) else {
        return Err(FormFailure::Refused);
    };
    let Some(connective) = connective_of(text_at(forest, first)) else {
        return Err(FormFailure::Refused);
    };
    let parts = formulas_at(base, lexicon, forest, second, end)?;
    let t = form(base, lexicon, connective, parts)?;
    Ok(t)
}

/// The formulas that the trees of a run are read as.
#[cycle(formula)]
#[tactic(auto, using(hol_terms::proofs::KeepsLemmas::keeps_trans, crate::proofs::LexiconLemmas::lexicon_kept))]
fn formulas_at(
    base: &mut Base,
    lexicon: &Lexicon,
    forest: &Forest,
    first: u32,
    end: u32,
) -> Result<Vec<TermId>, FormFailure>
    requires lexicon { IsLexicon base.old lexicon.now }
    requires run { IsRun forest.now first end }
    ensures read { Gives (λ ts. terms_at base.new ts.items) result (formulas_of (names_of lexicon.now.constants) (trees_at forest.now first end)) }
    ensures formulas { IfOk result (λ ts. HaveSentences base.new ts.items) }
    ensures keeps { Keeps base.old base.new }
{
    let mut formulas = Vec::new(base.allocator());
    let mut i = first;
    while let Some(after) = forest.next(i, end) {
        let t = formula_at(base, lexicon, forest, i)?;
        formulas.push(t)?;
        i = after;
    }
    Ok(formulas)
}
