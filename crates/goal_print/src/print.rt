//! The text of a goal is written, piece by piece.
ghost use Rattle.std.specs.Prelude.{◌≡◌, ℕ, ◌^◌, ◌≤◌, List, ◌++◌, OnOk, OnErr};
ghost use Rattle.std.specs.List.{AllByRecursion};
ghost use Rattle.hol_terms.specs.TermStore.{HasTerm, term_tree};
ghost use Rattle.goal_text.specs.Names.{Constants};
ghost use Rattle.goal_text.specs.ItemsIn.{HasDeclared, IsProblem, IsRead, declared_in, said_under};
ghost use Rattle.goal_print.specs.TermText.{goal_text};
ghost use Rattle.goal_print.specs.Printed.{printed};
ghost use Rattle.goal_print.specs.ReadsBack.{ReadsBack};
ghost use Rattle.goal_print.specs.Under.{nested};
ghost use Rattle.goal_print.specs.Pieces.{AppendsPart, KnowsSchematic};

use crate::constants::schematic_names;
use crate::piece::Piece;
use crate::terms::put_term;
use crate::types::put_type;
use crate::write::append_word;
use goal_text::{Declared, Problem};
use hol_terms::{Base, TermId};
use hol_types::{Bytes, NameId};
use std::alloc::{AllocError, Global};
use std::collections::HashSet;

/// Appends the text of a goal, given the constants that are declared with type variables. Without memory a front part of
/// it is appended.
fn append_goal(
    alloc: Global,
    base: &Base,
    schematic: &HashSet<NameId>,
    goal: TermId,
    out: &mut Bytes,
) -> Result<(), AllocError>
    requires { HasTerm base.now goal }
    ensures ok { OnOk result ((consts : Constants) → KnowsSchematic base.now consts schematic.now → out.new ≡ out.old ++ goal_text consts (term_tree base.now goal)) }
    ensures err { OnErr result ((consts : Constants) → KnowsSchematic base.now consts schematic.now → AppendsPart (goal_text consts (term_tree base.now goal)) out.old out.new) }
{
    let mut pieces = Vec::new(alloc);
    pieces.push(Piece::TermText(None, 0, goal))?;
    while let Some(piece) = pieces.pop() {
        match piece {
            Piece::Word(word) => append_word(alloc, base, word, out)?,
            Piece::TypeText(t, given) => put_type(base, t, given, &mut pieces)?,
            Piece::TermText(place, depth, t) => {
                put_term(base, schematic, place, depth, t, &mut pieces)?
            }
        }
    }
    Ok(())
}

/// Appends the text of a goal under declared constants. Without memory a front part of it is appended.
#[tactic(auto, using(crate::proofs::NestedLemmas::nested_few))]
fn append_under(
    alloc: Global,
    base: &Base,
    consts: &[Declared],
    goal: TermId,
    out: &mut Bytes,
) -> Result<(), AllocError>
    requires there { HasTerm base.now goal }
    requires declared { AllByRecursion (HasDeclared base.now) consts.now }
    ensures ok { OnOk result (out.new ≡ out.old ++ goal_text (declared_in base.now consts.now) (term_tree base.now goal)) }
    ensures err { OnErr result (AppendsPart (goal_text (declared_in base.now consts.now) (term_tree base.now goal)) out.old out.new) }
    ensures few { nested (term_tree base.now goal) ≤ 2 ^ 32 }
{
    let schematic = schematic_names(alloc, base, consts)?;
    append_goal(alloc, base, &schematic, goal, out)?;
    Ok(())
}

/// Appends the text of a problem's goal. Put as the goal behind the problem's declarations and facts, it is read as the same term
/// (`reads_back`), or refused because its lists are nested too deep, and for no other reason. So it is behind the declarations and
/// facts of a text that says the problem (`reads_back_in`). Of the length of the whole text nothing is said.
///
/// Right spines of `and` and `or` and left spines of `+` and `*` are one list, `=>` has two parts, quantifiers of one kind and
/// lambdas within one another have one list of binders, and `(-> ..)` has its longest chain. A variable is `?v0`, `?v1`, .. by the
/// number of binders round its own. A constant that is declared with type variables is always `(as c T)`. What is still to be
/// written is a list, so the depth of the goal takes no stack.
///
/// Without memory a front part of the text is appended.
pub fn print_goal(alloc: Global, problem: &Problem, out: &mut Bytes) -> Result<(), AllocError>
    requires { IsProblem problem.now }
    ensures ok { OnOk result (out.new ≡ out.old ++ printed problem.now) }
    ensures err { OnErr result (AppendsPart (printed problem.now) out.old out.new) }
    ensures reads_back { (is : IsProblem problem.now) → ReadsBack (said_under is.types problem.now) (printed problem.now) }
    ensures reads_back_in { (text : List ℕ) (is : IsRead text problem.now) → ReadsBack is.said (printed problem.now) }
{
    append_under(
        alloc,
        &problem.base,
        problem.consts.as_slice(),
        problem.goal,
        out,
    )
}
