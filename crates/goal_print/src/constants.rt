//! The constants that are written with their types.
ghost use Rattle.std.specs.Prelude.{IfOk};
ghost use Rattle.std.specs.List.{AllByRecursion};
ghost use Rattle.goal_text.specs.ItemsIn.{HasDeclared, declared_in};
ghost use Rattle.goal_print.specs.Pieces.{KnowsSchematic};

use goal_text::{Declared, is_ground};
use hol_terms::{Base, Terms};
use hol_types::NameId;
use std::alloc::{AllocError, Global};
use std::collections::HashSet;

/// The constants that are declared with type variables.
pub fn schematic_names(
    alloc: Global,
    base: &Base,
    consts: &[Declared],
) -> Result<HashSet<NameId>, AllocError>
    requires { AllByRecursion (HasDeclared base.now) consts.now }
    ensures { IfOk result (KnowsSchematic base.now (declared_in base.now consts.now)) }
{
    let mut found = HashSet::new(alloc);
    for declared in consts {
        let _text = base.text(declared.name);
        if !is_ground(base, declared.ty) {
            found.insert(declared.name)?;
        }
    }
    Ok(found)
}
