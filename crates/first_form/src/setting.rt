//! What a proof file may speak of.
ghost use Rattle.std.specs.Prelude.{◌≡◌, ◌++◌, ◌∷◌, [], IfErr, IfOk};
ghost use Rattle.hol_terms.specs.Constants.{negation};
ghost use Rattle.hol_terms.specs.TermStore.{Keeps, term_tree};
ghost use Rattle.goal_text.specs.Scope.{terms_at};
ghost use Rattle.goal_text.specs.Sentences.{HasSentence, HaveSentences};
ghost use Rattle.first_form.specs.Lexicon.{IsLexicon};
ghost use Rattle.goal_text.specs.ItemsIn.{IsProblem};
ghost use Rattle.first_form.specs.Setting.{IsSetting, IsSettingOf};

use crate::assertions::Assertions;
use crate::failure::FormFailure;
use crate::formula::not;
use crate::lexicon::Lexicon;
use crate::propositions::lexicon_of;
use goal_text::{Declared, Problem};
use hol_terms::{Base, TermId};
use hol_types::List;
use std::alloc::Global;

/// A problem with its assertions, and the constants that a proof may name.
#[derive(Drop)]
pub struct Setting {
    pub base: Base,
    pub lexicon: Lexicon,
    pub facts: List<TermId>,
    pub goal: TermId,
    pub assertions: Assertions,
}

/// The facts in order, and the negated goal.
#[tactic(auto, using(hol_terms::proofs::KeepsLemmas::keeps_trans))]
fn assertions_of(
    alloc: Global,
    base: &mut Base,
    lexicon: &Lexicon,
    facts: &[TermId],
    goal: TermId,
) -> Result<Assertions, FormFailure>
    requires lexicon { IsLexicon base.old lexicon.now }
    requires facts { HaveSentences base.old facts.now }
    requires goal { HasSentence base.old goal }
    ensures terms { IfOk result (λ given. terms_at base.new given ≡ terms_at base.old facts.now ++ negation (term_tree base.old goal) ∷ []) }
    ensures formulas { IfOk result (HaveSentences base.new) }
    ensures memory { IfErr result (λ e. e ≡ FormFailure.Memory) }
    ensures keeps { Keeps base.old base.new }
{
    let negated = not(base, lexicon, goal)?;
    let mut given = Vec::from_slice(alloc, facts)?;
    given.push(negated)?;
    let assertions = Assertions::new(alloc, given)?;
    Ok(assertions)
}

/// The setting of a proof for a problem, and the problem's constants.
pub fn setting_of(alloc: Global, problem: Problem) -> Result<(Setting, List<Declared>), FormFailure>
    requires { IsProblem problem }
    ensures setting { IfOk result (λ r. IsSetting r.0) }
    ensures problem { IfOk result (λ r. IsSettingOf problem r.0) }
    ensures consts { IfOk result (λ r. r.1 ≡ problem.consts) }
    ensures memory { IfErr result (λ e. e ≡ FormFailure.Memory) }
{
    let Problem {
        base,
        consts,
        facts,
        goal,
    } = problem;
    let mut base = base;
    let lexicon = lexicon_of(&mut base, consts.as_slice())?;
    let assertions = assertions_of(alloc, &mut base, &lexicon, facts.as_slice(), goal)?;
    let setting = Setting {
        base,
        lexicon,
        facts,
        goal,
        assertions,
    };
    Ok((setting, consts))
}
