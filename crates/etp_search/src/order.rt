ghost use Rattle.std.specs.Prelude.{◌≡◌, ◌≤◌};
ghost use Rattle.std.specs.Ordering.{nat_cmp};
ghost use Rattle.std.specs.Cmp.Lexicographic.{slice_cmp};
ghost use Rattle.etp_theory.specs.Trees.{leaves, shape_of, word_of};
ghost use Rattle.etp_term.specs.Terms.{tree_of};
ghost use Rattle.etp_search.specs.Shortest.{term_cmp};

use etp_term::Term;
use std::cmp::Ordering;

/// The order of two terms: by leaves, then shape, then word.
pub(crate) fn compare(mine: &Term, theirs: &Term) -> Ordering
    requires mine { leaves (tree_of mine.now) ≤ 64 }
    requires theirs { leaves (tree_of theirs.now) ≤ 64 }
    ensures { result ≡ term_cmp (tree_of mine.now) (tree_of theirs.now) }
{
    let by_leaves = mine.leaves().cmp(&theirs.leaves());
    let by_shape = mine.shape_cmp(theirs);
    let by_word = word_cmp(mine, theirs);
    by_leaves.then(by_shape.then(by_word))
}

/// The order of the words of two terms of one shape: variable by variable, from left to right.
fn word_cmp(mine: &Term, theirs: &Term) -> Ordering
    ensures { shape_of (tree_of mine.now) ≡ shape_of (tree_of theirs.now)
        → result ≡ slice_cmp nat_cmp (word_of (tree_of mine.now))
        (word_of (tree_of theirs.now)) }
{
    match (mine, theirs) {
        (Term::Var(v), Term::Var(w)) => v.cmp(w),
        (Term::Op(a, b), Term::Op(c, d)) => {
            word_cmp(a.get(), c.get()).then(word_cmp(b.get(), d.get()))
        }
        _ => Ordering::Equal,
    }
}
