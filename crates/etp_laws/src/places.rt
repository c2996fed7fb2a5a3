ghost use Rattle.std.specs.Prelude.{◌≡◌, ◌≤◌, ◌<◌, ◌+◌, ◌^◌, get_or, [], length, filter, take};
ghost use Rattle.std.specs.Ordering.{nat_cmp};
ghost use Rattle.std.specs.declared.cmp.Ordering.TheVariants.{Equal};
ghost use Rattle.etp_theory.specs.Trees.{ops, shape_of};
ghost use Rattle.etp_theory.specs.Orders.{shape_cmp};
ghost use Rattle.etp_term.specs.Terms.{tree_of};
ghost use Rattle.etp_laws.specs.Occurrences.{Grows};
ghost use Rattle.etp_laws.specs.Enumeration.{words, is_kept};
ghost use Rattle.etp_laws.specs.Places.{words_count, place_from, place_by, number_of, oriented, oriented_law};
ghost use Rattle.etp_laws.specs.Places;

use crate::counts::{laws_below, pairs_below, shapes_of, words_of};
use crate::letters::{Letters, by_occurrence};
use crate::parts::{Orientation, ShapePlace, letters_of, shape_of};
use crate::word_lists::{is_kept, used_after};
use etp_term::Term;
use std::cmp::Ordering;

/// How many laws of two equal shapes of two operations are listed.
const EQUAL_SHAPES: u32 = 112;

/// How many words of as many variables stand before the word.
fn rank(word: &[u8]) -> u32
    requires short { length word.now ≤ 8 }
    requires small { Places.rank 0 word.now < 2 ^ 31 }
    ensures { result ≡ Places.rank 0 word.now }
{
    let mut before = 0;
    let mut used = 0;
    for (i, v) in word.iter().enumerate() {
        before += *v as u32 * words_of((word.len() - 1 - i) as u32, used as u32);
        used = used_after(used, *v);
    }
    before
}

/// The word of `leaves` variables before which `place` words stand.
fn word_at(leaves: u32, place: u32) -> Letters
    requires short { leaves ≤ 8 }
    requires within { place < words_count leaves 0 }
    ensures value { result ≡ get_or (words leaves 0) place [] }
    ensures len { length result ≡ leaves }
{
    let mut word = Letters::new();
    let mut rest = place;
    let mut used = 0;
    for i in 0..leaves {
        let count = words_of(leaves - 1 - i, used as u32);
        let v = (rest / count).min(used as u32);
        rest -= v * count;
        word.push(v as u8);
        used = used_after(used, v as u8);
    }
    word
}

/// How many words before this one give listed laws, in a block of two equal shapes of `middle`
/// leaves each.
fn kept_before(word: &[u8], middle: u32) -> u32
    requires short { middle ≤ 4 }
    requires len { length word.now ≡ middle + middle }
    requires within { Places.rank 0 word.now < words_count (middle + middle) 0 }
    requires small { Places.rank 0 word.now < 2 ^ 31 }
    ensures value { result ≡ length (filter (is_kept middle)
        (take (Places.rank 0 word.now) (words (middle + middle) 0))) }
    ensures fewer { result ≤ Places.rank 0 word.now }
{
    let mut kept = 0;
    for place in 0..rank(word) {
        let other = word_at(middle + middle, place);
        kept += is_kept(other.as_slice(), middle as usize) as u32;
    }
    kept
}

/// How many laws of as many operations stand before those of two shapes.
fn block_start(left: &ShapePlace, right: &ShapePlace) -> u32
    requires ops { left.now.ops + right.now.ops ≤ 5 }
    requires left { left.now.place ≤ 42 }
    requires right { right.now.place ≤ 42 }
    ensures value { result ≡ Places.block_start left.now.ops right.now.ops left.now.place right.now.place }
    ensures small { result ≤ 10000000 }
{
    let ops = left.ops + right.ops;
    let before = pairs_below(ops, left.ops);
    let words = words_of(ops + 2, 0);
    match left.ops.cmp(&right.ops) {
        Ordering::Less => (before + (left.place * shapes_of(right.ops) + right.place)) * words,
        Ordering::Equal => (before + left.place) * words + right.place * EQUAL_SHAPES,
        Ordering::Greater => 0,
    }
}

/// How many listed laws of two shapes in this order, the left one of `middle` leaves, stand before
/// the one of the word.
fn place_in_block(order: Ordering, middle: u32, word: &[u8]) -> u32
    requires short { length word.now ≤ 7 }
    requires grows { Grows 0 word.now }
    requires twice { order ≡ Equal → length word.now ≡ middle + middle }
    ensures value { result ≡ Places.place_in_block order middle word.now }
    ensures small { result ≤ 877 }
{
    match order {
        Ordering::Less => rank(word),
        Ordering::Equal => kept_before(word, middle),
        Ordering::Greater => 0,
    }
}

/// How many laws stand before the listed one of two shapes and a word.
fn place_at(left: &ShapePlace, right: &ShapePlace, word: &[u8]) -> u32
    requires ops { left.now.ops + right.now.ops ≤ 5 }
    requires left { left.now.place ≤ 42 }
    requires right { right.now.place ≤ 42 }
    requires len { length word.now ≡ left.now.ops + right.now.ops + 2 }
    requires grows { Grows 0 word.now }
    ensures value { result ≡ place_from left.now.ops right.now.ops left.now.place right.now.place word.now }
    ensures small { result ≤ 20000000 }
{
    let start = block_start(left, right);
    let inside = place_in_block(left.order(right), left.ops + 1, word);
    laws_below(left.ops + right.ops) + (start + inside)
}

/// The lesser of two words.
fn lesser(first: Letters, second: Letters) -> Letters
    ensures { result ≡ Places.lesser first second }
{
    if first.as_slice().cmp(&second.as_slice()).is_gt() {
        second
    } else {
        first
    }
}

/// How many laws stand before the listed one that is the same as the law of these sides in this
/// orientation.
fn place_of(left: &Term, right: &Term, orientation: Orientation) -> u32
    requires { ops (tree_of left.now) + ops (tree_of right.now) ≤ 5 }
    ensures value { result ≡ place_by (shape_cmp
        (shape_of (oriented orientation (tree_of left.now)))
        (shape_of (oriented orientation (tree_of right.now))))
        (oriented_law orientation (tree_of left.now) (tree_of right.now)) }
    ensures small { result ≤ 20000000 }
{
    let left_shape = shape_of(left, orientation);
    let right_shape = shape_of(right, orientation);
    let left_word = letters_of(left, orientation);
    let right_word = letters_of(right, orientation);
    match left_shape.order(&right_shape) {
        Ordering::Less => {
            let plain = by_occurrence(left_word.as_slice(), right_word.as_slice());
            place_at(&left_shape, &right_shape, plain.as_slice())
        }
        Ordering::Equal => {
            let plain = by_occurrence(left_word.as_slice(), right_word.as_slice());
            let exchanged = by_occurrence(right_word.as_slice(), left_word.as_slice());
            place_at(
                &left_shape,
                &right_shape,
                lesser(plain, exchanged).as_slice(),
            )
        }
        Ordering::Greater => {
            let exchanged = by_occurrence(right_word.as_slice(), left_word.as_slice());
            place_at(&right_shape, &left_shape, exchanged.as_slice())
        }
    }
}

/// The number of the law of these sides in this orientation; they differ or are one variable.
pub fn number_of(left: &Term, right: &Term, orientation: Orientation) -> u32
    requires { ops (tree_of left.now) + ops (tree_of right.now) ≤ 5 }
    ensures { result ≡ number_of (oriented_law orientation (tree_of left.now) (tree_of right.now)) }
{
    place_of(left, right, orientation) + 1
}
