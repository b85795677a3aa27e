//! Items of two tables, numbered through.
ghost use Rattle.std.specs.Prelude.{◌≡◌, ◌<◌, ◌++◌, length, slice_get, MatchOption, IfOk, OnOk, OnErr};
ghost use Rattle.hol_types.specs.Once.{Once, Absent, IsAdded};

use crate::list::{Bytes, List};
use crate::table::{Exact, Table};
use std::alloc::{AllocError, Global};

/// The number of an item.
pub fn find_in<T: Exact>(base: &Table<T>, own: &Table<T>, item: &T) -> Option<usize>
    ensures { MatchOption result (Absent (base.now ++ own.now) item.now) (λ i. slice_get (base.now ++ own.now) i ≡ Some item.now) }
{
    let before = base.len();
    let _more = own.len();
    match base.find(item) {
        Some(at) => Some(at),
        None => match own.find(item) {
            Some(at) => Some(before + at),
            None => None,
        },
    }
}

/// The number of an item, given its bytes.
pub fn find_bytes_in(base: &Table<Bytes>, own: &Table<Bytes>, bytes: &[u8]) -> Option<usize>
    ensures { MatchOption result (Absent (base.now ++ own.now) bytes.now) (λ i. slice_get (base.now ++ own.now) i ≡ Some bytes.now) }
{
    let before = base.len();
    let _more = own.len();
    match base.find_bytes(bytes) {
        Some(at) => Some(at),
        None => match own.find_bytes(bytes) {
            Some(at) => Some(before + at),
            None => None,
        },
    }
}

/// The place as a number of 32 bits. Past these there is no memory.
pub fn number(at: usize) -> Result<u32, AllocError>
    ensures { IfOk result (λ n. n ≡ at) }
{
    if at < 0x1_0000_0000 {
        Ok(at as u32)
    } else {
        Err(AllocError)
    }
}

/// The number of an item, which is added to the second table where neither has it.
pub fn number_in<T: Exact + Drop>(
    base: &Table<T>,
    own: &mut Table<T>,
    item: T,
) -> Result<u32, AllocError>
    requires { Once (base.now ++ own.old) }
    ensures at { IfOk result (λ i. slice_get (base.now ++ own.new) i ≡ Some item) }
    ensures once { Once (base.now ++ own.new) }
    ensures added { OnOk result (IsAdded item (base.now ++ own.old) (base.now ++ own.new)) }
    ensures err { OnErr result (own.new ≡ own.old) }
{
    match base.find(&item) {
        Some(at) => Ok(number(at)?),
        None => {
            let before = base.len();
            let _fits = number(before + own.len())?;
            let at = own.add(item)?;
            Ok((before + at) as u32)
        }
    }
}

/// The number of bytes, which are copied and added to the second table where neither has them.
pub fn number_of_bytes(
    alloc: Global,
    base: &Table<Bytes>,
    own: &mut Table<Bytes>,
    bytes: &[u8],
) -> Result<u32, AllocError>
    requires { Once (base.now ++ own.old) }
    ensures at { IfOk result (λ i. slice_get (base.now ++ own.new) i ≡ Some bytes.now) }
    ensures once { Once (base.now ++ own.new) }
    ensures added { OnOk result (IsAdded bytes.now (base.now ++ own.old) (base.now ++ own.new)) }
    ensures err { OnErr result (own.new ≡ own.old) }
{
    match find_bytes_in(base, own, bytes) {
        Some(at) => Ok(number(at)?),
        None => {
            let copy = List::new(Vec::from_slice(alloc, bytes)?);
            let i = number_in(base, own, copy)?;
            Ok(i)
        }
    }
}

/// The item of a number.
pub fn item_in<'a, T: Exact>(base: &'a Table<T>, own: &'a Table<T>, at: u32) -> &'a T
    requires { at < length (base.now ++ own.now) }
    ensures { slice_get (base.now ++ own.now) at ≡ Some result.now }
{
    let at = at as usize;
    let before = base.len();
    if at < before {
        base.get(at)
    } else {
        own.get(at - before)
    }
}
