//! The command line.
ghost use Rattle.std.specs.Prelude.{◌≡◌, map, string_bytes, MatchOption, None, Some};
ghost use Rattle.smt_cli.specs.CommandLine.{files_named, is_file_name};

/// The files that a command line names.
#[derive(Clone, Copy, Debug)]
pub struct FileNames<'w> {
    pub goal: &'w str,
    pub proof: &'w str,
}

/// Whether a word may name a file: it doesn't begin with `-`, or is `-` alone.
fn is_file(word: &str) -> bool
    ensures { result ≡ is_file_name word.now }
{
    match word.as_bytes() {
        [] => true,
        [_] => true,
        [first, _, ..] => *first != b'-',
    }
}

/// The files that the words name, where they are a command line. The words come without the program's name.
#[tactic(auto, unfolding(crate::specs::CommandLine::files_named))]
pub fn read_words(words: &[String]) -> Option<FileNames<'_>>
    ensures { MatchOption result (files_named (map string_bytes words.now) ≡ None)
        (λ names. files_named (map string_bytes words.now) ≡ Some (record { goal = names.goal.now; proof = names.proof.now })) }
{
    let [command, goal, proof] = words else {
        return None;
    };
    let goal = goal.as_str();
    let proof = proof.as_str();
    if command.as_str() == "check" && is_file(goal) && is_file(proof) {
        Some(FileNames { goal, proof })
    } else {
        None
    }
}
