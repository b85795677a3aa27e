//! `smt`: replays a Z3 proof of a goal of higher-order logic by inferences of a small kernel.
//!
//! `smt check GOAL PROOF` reads a goal file and a proof file and prints one line: the goal is proved, or the first step
//! that isn't accepted, or that a file is refused. `smt` carries what is claimed of the program: where it ends with status
//! 0, the goal follows from the goal file's facts by natural deduction, without hypotheses.
#![tactic(auto)]

mod check;
mod line;
mod program;
mod replay_line;
mod run;
#[cfg(test)]
mod tests;
mod unbuilt;
mod words;

use program::smt;
use smt_io::{DiskFiles, StdSink};
use std::env;
use std::process::ExitCode;

/// Reads the words, files and output of the system. Where the words can't be had, memory ran out.
fn main(rt: HostRuntime) -> ExitCode {
    let alloc = rt.alloc();
    let mut words = Vec::new(alloc);
    let Ok(args) = env::args(&rt) else {
        return ExitCode::from(7);
    };
    for word in args.skip(1) {
        if words.push(word).is_err() {
            return ExitCode::from(7);
        }
    }
    let mut files = DiskFiles::new(&rt);
    let mut out = StdSink::new(&rt);
    ExitCode::from(smt(alloc, &words, &mut files, &mut out))
}
