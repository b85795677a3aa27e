//! What readers ask of trees.
ghost use Rattle.std.specs.Prelude.{◌≡◌, ◌+◌, ◌<◌, None, false, IfSome, MatchOption, Some};
ghost use Rattle.sexp.specs.Tree.{AtomTree, ListTree, place};
ghost use Rattle.sexp.specs.Forest.{tree_at, trees_at, after_of, HasTree, IsRun};
ghost use Rattle.first_form.specs.Trees as trees;

use sexp::{Forest, RecKind};

/// The text of an atom.
pub fn atom_at(forest: &Forest, i: u32) -> Option<&[u8]>
    requires { HasTree forest.now i }
    ensures { MatchOption result
        (trees.is_atom (tree_at forest.now i) ≡ false)
        (λ text. tree_at forest.now i ≡ AtomTree (place (tree_at forest.now i)) text.now) }
{
    forest.atom(i)
}

/// The text of an atom, and nothing of a quoted atom or a list.
pub fn text_at(forest: &Forest, i: u32) -> &[u8]
    requires { HasTree forest.now i }
    ensures { result.now ≡ trees.text_of (tree_at forest.now i) }
{
    atom_at(forest, i).unwrap_or(&[])
}

/// The numbers of a list's parts: the first, and the one past the last.
pub fn parts_at(forest: &Forest, i: u32) -> Option<(u32, u32)>
    requires { HasTree forest.now i }
    ensures { MatchOption result
        (trees.parts_of (tree_at forest.now i) ≡ None)
        (λ r. (tree_at forest.now i ≡ ListTree (place (tree_at forest.now i)) (trees_at forest.now r.0 r.1)) × IsRun forest.now r.0 r.1 × (i < r.0) × (r.1 ≡ after_of forest.now i)) }
{
    let end = forest.after(i);
    match forest.kind(i) {
        RecKind::List => Some((i + 1, end)),
        RecKind::Atom => None,
        RecKind::Quoted => None,
    }
}

/// The number of the tree of a run, where there is just one.
pub fn one_at(forest: &Forest, first: u32, end: u32) -> Option<u32>
    requires { IsRun forest.now first end }
    ensures tree { MatchOption result (trees.one_of (trees_at forest.now first end) ≡ None) (λ i. trees.one_of (trees_at forest.now first end) ≡ Some (tree_at forest.now i)) }
    ensures there { IfSome result (HasTree forest.now) }
{
    let after = forest.next(first, end)?;
    match forest.next(after, end) {
        Some(_) => None,
        None => Some(first),
    }
}

/// Whether a run has no tree.
pub fn is_empty(forest: &Forest, first: u32, end: u32) -> bool
    requires { IsRun forest.now first end }
    ensures { result ≡ trees.is_empty (trees_at forest.now first end) }
{
    match forest.next(first, end) {
        Some(_) => false,
        None => true,
    }
}
