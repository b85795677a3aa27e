//! `bench_forest FILE` loads a file, reads its trees, and prints how many bytes and trees it has. It is here for its time and
//! its memory, which `bench/forest` measures.
#![tactic(auto)]

use sexp::read_forest;
use smt_io::{DiskFiles, load};
use std::alloc::Global;
use std::env;
use std::process::ExitCode;

/// No file of more bytes is read.
const MOST: u64 = 268_435_456;

/// How many bytes a file has, and how many trees, those within others counted.
#[derive(Drop)]
struct Counts {
    bytes: usize,
    trees: u32,
}

/// Counts what is in a file. None: it can't be loaded, or its text is refused.
fn count(alloc: Global, files: &mut DiskFiles<'_, HostRuntime>, name: &str) -> Option<Counts> {
    let bytes = load(alloc, files, name, MOST).ok()?;
    let forest = read_forest(alloc, bytes.as_slice(), MOST).ok()?;
    Some(Counts {
        bytes: bytes.as_slice().len(),
        trees: forest.len(),
    })
}

/// Ends with 0, with 1 where the file isn't read, with 2 where no file is named, and with 7 where the words or the output fail.
fn main(rt: HostRuntime) -> ExitCode {
    let Ok(mut words) = env::args(&rt) else {
        return ExitCode::from(7);
    };
    let Some(name) = words.nth(1) else {
        return ExitCode::from(2);
    };
    let mut files = DiskFiles::new(&rt);
    let Some(counts) = count(rt.alloc(), &mut files, name.as_str()) else {
        return ExitCode::from(1);
    };
    match println!(rt; "{} bytes, {} trees", counts.bytes, counts.trees) {
        Ok(()) => ExitCode::from(0),
        Err(_) => ExitCode::from(7),
    }
}
