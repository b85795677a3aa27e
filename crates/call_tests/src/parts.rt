//! The parts of terms that share theirs. The expected numbers are worked by hand: of 60 additions, each sum is a part, and
//! the variable; `+` and what it makes of its first argument are heads, and so none.
use crate::terms::many;
use hol_terms::{Base, Terms};
use part_numbers::PartNumbers;
use std::process::Abort;
use std::test::Fail;

// The parts of 60 additions.
fn additions(rt: &impl Abort, base: &mut Base, wide: bool) -> Result<(), Fail> {
    let t = many(base, b"x", 60, wide)?;
    let parts = PartNumbers::of(base, &[t])?;
    assert_eq!(rt; parts.len(), 61);
    assert_eq!(rt; parts.part(0), Some(t));
    assert_eq!(rt; parts.part(61), None);
    Ok(())
}

fn each_form(rt: &impl Abort, base: &mut Base) -> Result<(), Fail> {
    additions(rt, base, true)?;
    additions(rt, base, false)
}

#[test]
fn parts_by_number(rt: HostRuntime) -> Result<(), Fail> {
    let mut base = Base::new(rt.alloc());
    each_form(&rt, &mut base)
}
