//! Why a rule application isn't accepted.
ghost use Rattle.std.specs.Prelude.{◌≡◌, ◌++◌, OnOk, OnErr};
ghost use Rattle.std.specs.Fmt.{decimal};
ghost use Rattle.proof_plan.specs.WhyText.{why_text, why_words, why_number, Begins};

use std::alloc::AllocError;

/// Why a rule application isn't accepted. A number is that of a part, a row, an atom or a variable, as the
/// rule's acceptance says.
#[derive(Clone, Copy, PartialEq, Eq, Debug)]
pub enum Why {
    /// The conclusion and the premises don't have the rule's form.
    Shape,
    /// This row of the truth table makes the premises true and the conclusion false.
    NotConsequence(u32),
    /// So many atoms, and a truth table takes fewer.
    TooManyAtoms(u32),
    /// The step has so many distinct parts, and a step may have fewer.
    TooLarge(u32),
    /// The part of this number is a product of two sides with atoms.
    NotLinear(u32),
    /// The coefficients of the part of this number grow too large; `u32::MAX` stands for the constant.
    Overflow(u32),
    /// No list of weights refutes the literals.
    NoCertificate,
    /// The part of this number is where the two sides part ways.
    NotSame(u32),
    /// The conclusion is no instance of the quantified formula.
    NotInstance,
    /// The bound variable of this number is free in a hypothesis.
    VariableInHypothesis(u32),
}

impl Why {
    /// The words of the text.
    fn words(self) -> &'static str
        ensures { result.now ≡ why_words self }
    {
        match self {
            Why::Shape => "Shape",
            Why::NotConsequence(_) => "NotConsequence ",
            Why::TooManyAtoms(_) => "TooManyAtoms ",
            Why::TooLarge(_) => "TooLarge ",
            Why::NotLinear(_) => "NotLinear at ",
            Why::Overflow(u32::MAX) => "Overflow at constant",
            Why::Overflow(_) => "Overflow at ",
            Why::NoCertificate => "NoCertificate",
            Why::NotSame(_) => "NotSame at ",
            Why::NotInstance => "NotInstance",
            Why::VariableInHypothesis(_) => "VariableInHypothesis ",
        }
    }

    /// The number after the words.
    fn number(self) -> Option<u32>
        ensures { result ≡ why_number self }
    {
        match self {
            Why::NotConsequence(n) => Some(n),
            Why::TooManyAtoms(n) => Some(n),
            Why::TooLarge(n) => Some(n),
            Why::NotLinear(n) => Some(n),
            Why::Overflow(u32::MAX) => None,
            Why::Overflow(n) => Some(n),
            Why::NotSame(n) => Some(n),
            Why::VariableInHypothesis(n) => Some(n),
            Why::Shape => None,
            Why::NoCertificate => None,
            Why::NotInstance => None,
        }
    }
}

/// Appends a number in decimal, or without memory a part of it.
#[tactic(auto, using(std::proofs::lemmas::Fmt::decimal_digit, std::proofs::lemmas::Fmt::decimal_step))]
fn push_decimal(out: &mut Vec<u8>, n: u32) -> Result<(), AllocError>
    ensures ok { OnOk result (out.new.items ≡ out.old.items ++ decimal n) }
    ensures err { OnErr result (Begins out.old.items out.new.items) }
{
    if n < 10 {
        out.push(b'0' + n as u8)?;
        return Ok(());
    }
    push_decimal(out, n / 10)?;
    out.push(b'0' + (n % 10) as u8)?;
    Ok(())
}

/// Appends the text, or without memory a part of it.
fn push_why(out: &mut Vec<u8>, why: Why) -> Result<(), AllocError>
    ensures ok { OnOk result (out.new.items ≡ out.old.items ++ why_text why) }
    ensures err { OnErr result (Begins out.old.items out.new.items) }
{
    out.extend_from_slice(why.words().as_bytes())?;
    if let Some(n) = why.number() {
        push_decimal(out, n)?;
    }
    Ok(())
}

/// Appends the text of a cause, as the output line that names the failed node has it. Without memory
/// nothing is appended.
pub fn append_why(out: &mut Vec<u8>, why: Why) -> Result<(), AllocError>
    ensures ok { OnOk result (out.new.items ≡ out.old.items ++ why_text why) }
    ensures err { OnErr result (out.new.items ≡ out.old.items) }
{
    let before = out.len();
    if let Err(fault) = push_why(out, why) {
        out.truncate(before);
        return Err(fault);
    }
    Ok(())
}
