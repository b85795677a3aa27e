//! The proof rules.
ghost use Rattle.std.specs.Prelude.{◌≡◌, ◌↔◌, IsTrue};
ghost use Rattle.proof_plan.specs.Rules.{rule_name, TakesPremises};

/// A proof rule of Z3, named as Z3 prints it.
#[derive(Clone, Copy, PartialEq, Eq, Debug)]
pub enum Rule {
    Asserted,
    Goal,
    TrueAxiom,
    Hypothesis,
    Mp,
    MpTilde,
    Refl,
    Symm,
    Trans,
    TransStar,
    Monotonicity,
    IffTilde,
    IffTrue,
    IffFalse,
    AndElim,
    NotOrElim,
    Lemma,
    UnitResolution,
    DefAxiom,
    NnfPos,
    NnfNeg,
    QuantIntro,
    QuantInst,
    PullQuant,
    PushQuant,
    ElimUnused,
    Der,
    Sk,
    IntroDef,
    ApplyDef,
    Rewrite,
    Commutativity,
    Distributivity,
    ThLemma,
}

impl Rule {
    /// The name by which a proof file and an output line write the rule.
    pub fn name(self) -> &'static str
        ensures { result.now ≡ rule_name self }
    {
        match self {
            Rule::Asserted => "asserted",
            Rule::Goal => "goal",
            Rule::TrueAxiom => "true-axiom",
            Rule::Hypothesis => "hypothesis",
            Rule::Mp => "mp",
            Rule::MpTilde => "mp~",
            Rule::Refl => "refl",
            Rule::Symm => "symm",
            Rule::Trans => "trans",
            Rule::TransStar => "trans*",
            Rule::Monotonicity => "monotonicity",
            Rule::IffTilde => "iff~",
            Rule::IffTrue => "iff-true",
            Rule::IffFalse => "iff-false",
            Rule::AndElim => "and-elim",
            Rule::NotOrElim => "not-or-elim",
            Rule::Lemma => "lemma",
            Rule::UnitResolution => "unit-resolution",
            Rule::DefAxiom => "def-axiom",
            Rule::NnfPos => "nnf-pos",
            Rule::NnfNeg => "nnf-neg",
            Rule::QuantIntro => "quant-intro",
            Rule::QuantInst => "quant-inst",
            Rule::PullQuant => "pull-quant",
            Rule::PushQuant => "push-quant",
            Rule::ElimUnused => "elim-unused",
            Rule::Der => "der",
            Rule::Sk => "sk",
            Rule::IntroDef => "intro-def",
            Rule::ApplyDef => "apply-def",
            Rule::Rewrite => "rewrite",
            Rule::Commutativity => "commutativity",
            Rule::Distributivity => "distributivity",
            Rule::ThLemma => "th-lemma",
        }
    }

    /// Whether an application of the rule may have this number of premises.
    pub fn takes(self, premises: usize) -> bool
        ensures { IsTrue result ↔ TakesPremises self premises }
    {
        match self {
            Rule::Asserted => premises == 0,
            Rule::Goal => premises == 0,
            Rule::TrueAxiom => premises == 0,
            Rule::Hypothesis => premises == 0,
            Rule::Mp => premises == 2,
            Rule::MpTilde => premises == 2,
            Rule::Refl => premises == 0,
            Rule::Symm => premises == 1,
            Rule::Trans => premises == 2,
            Rule::TransStar => premises > 0,
            Rule::Monotonicity => true,
            Rule::IffTilde => premises == 1,
            Rule::IffTrue => premises == 1,
            Rule::IffFalse => premises == 1,
            Rule::AndElim => premises == 1,
            Rule::NotOrElim => premises == 1,
            Rule::Lemma => premises == 1,
            Rule::UnitResolution => premises > 0,
            Rule::DefAxiom => premises == 0,
            Rule::NnfPos => true,
            Rule::NnfNeg => true,
            Rule::QuantIntro => premises == 1,
            Rule::QuantInst => premises == 0,
            Rule::PullQuant => premises == 0,
            Rule::PushQuant => premises == 0,
            Rule::ElimUnused => premises == 0,
            Rule::Der => premises == 0,
            Rule::Sk => premises == 0,
            Rule::IntroDef => premises == 0,
            Rule::ApplyDef => premises == 1,
            Rule::Rewrite => premises == 0,
            Rule::Commutativity => premises == 0,
            Rule::Distributivity => premises == 0,
            Rule::ThLemma => true,
        }
    }
}
