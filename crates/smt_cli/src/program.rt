//! The program: from its words to its exit status.
ghost use Rattle.std.specs.Prelude.{◌≡◌, ◌⊎◌, ℕ, List, Some, None, map, string_bytes};
ghost use Rattle.smt_io.specs.Faults.{Rose};
ghost use Rattle.smt_cli.specs.Checking.{Checks, IsNotRefused};
ghost use Rattle.smt_cli.specs.CommandLine.{FilesNamed, files_named, usage_text};
ghost use Rattle.smt_cli.specs.Follows.{GoalFollows};
ghost use Rattle.smt_cli.specs.Writing.{EndsSomehow, SaysProved, Writes};

use crate::check::check_one;
use crate::words::read_words;
use smt_io::{Files, Sink, write_all};
use std::alloc::Global;

/// The line that is printed where the words are no command line.
const USAGE: &str =
    "usage: smt print GOAL | smt check [--workers N] [--net on|off] [--stats] GOAL PROOF\n";

/// Does what the words say, which come without the program's name, and gives the exit status: that of `check` where
/// they are `check GOAL PROOF`. Other words are no command line: then the usage is printed, the status is 2, or 6
/// where the line couldn't be written whole, and no file is read. A word that begins with `-` names no file, unless it
/// is `-` alone.
pub fn smt<F: Files, K: Sink>(alloc: Global, words: &[String], files: &mut F, out: &mut K) -> u8
    ensures proved { result ≡ 0 → (n : FilesNamed) → files_named (map string_bytes words.now) ≡ Some n → (g : List ℕ) → F.contents files.old n.goal ≡ Some g → GoalFollows g }
    ensures said { SaysProved (K.contents out.old) (K.contents out.new) → (n : FilesNamed) → files_named (map string_bytes words.now) ≡ Some n → (g : List ℕ) → F.contents files.old n.goal ≡ Some g → GoalFollows g }
    ensures checks { (n : FilesNamed) → files_named (map string_bytes words.now) ≡ Some n → Checks (F.contents files.old n.goal) (F.contents files.old n.proof) (K.contents out.old) (K.contents out.new) result }
    ensures ends { (n : FilesNamed) → files_named (map string_bytes words.now) ≡ Some n → EndsSomehow (K.contents out.old) (K.contents out.new) result }

    ensures usage { files_named (map string_bytes words.now) ≡ None → Writes usage_text 2 (K.contents out.old) (K.contents out.new) result }
    ensures unused { files_named (map string_bytes words.now) ≡ None → files.new ≡ files.old }

    ensures unread { (n : FilesNamed) → files_named (map string_bytes words.now) ≡ Some n → result ≡ 5 → Rose (F.faults files.old n.goal) (F.faults files.new n.goal) ⊎ (Rose (F.faults files.old n.proof) (F.faults files.new n.proof) × IsNotRefused (F.contents files.old n.goal)) }
    ensures unwritten { result ≡ 6 → Rose (K.faults out.old) (K.faults out.new) }
    ensures contents_stay { F.contents files.new ≡ F.contents files.old }
{
    match read_words(words) {
        Some(names) => check_one(alloc, names.goal, names.proof, files, out),
        None => usage(out),
    }
}

/// Prints the usage.
fn usage<K: Sink>(out: &mut K) -> u8
    ensures writes { Writes usage_text 2 (K.contents out.old) (K.contents out.new) result }
    ensures fault { (result ≡ 2) ⊎ ((result ≡ 6) × Rose (K.faults out.old) (K.faults out.new)) }
{
    match write_all(out, USAGE.as_bytes()) {
        Ok(()) => 2,
        Err(_) => 6,
    }
}
