ghost use Rattle.std.specs.Prelude.{◌≡◌, ◌≤◌, ◌+◌, ◌++◌, ◌∷◌, [], IfOk, OnOk, All, length, map, filter, flat_map};
ghost use Rattle.etp_theory.specs.Trees.{shape_leaves};
ghost use Rattle.etp_term.specs.Laws.{equation_of};
ghost use Rattle.etp_laws.specs.Shapes.{shape_from, sides_from};
ghost use Rattle.etp_laws.specs.Enumeration.{words, is_kept, law_at, laws_at, laws_of, laws_upto};

use crate::shapes::{Sides, pairs};
use crate::word_lists::{is_kept, words};
use etp_term::Law;
use sqlite_items::Items;
use std::alloc::{AllocError, Global};
use std::cmp::Ordering;

/// The law of these shapes with the word's variables.
fn law_at(alloc: Global, sides: &Sides, word: &[u8]) -> Result<Law, AllocError>
    requires { length word.now ≡ shape_leaves (shape_from sides.now.left) + shape_leaves (shape_from sides.now.right) }
    ensures { IfOk result (λ p. equation_of p ≡ law_at (sides_from sides.now) word.now) }
{
    let middle = sides.left.leaves();
    let left = sides.left.filled(alloc, &word[..middle])?;
    let right = sides.right.filled(alloc, &word[middle..])?;
    Ok(Law { left, right })
}

/// Appends the law of these shapes for each of the words.
fn append_all(
    alloc: Global,
    laws: &mut Items<Law>,
    sides: &Sides,
    words: &[Items<u8>],
) -> Result<(), AllocError>
    requires { All (λ w. length w ≡ shape_leaves (shape_from sides.now.left)
        + shape_leaves (shape_from sides.now.right)) words.now }
    ensures { OnOk result (map equation_of laws.new
        ≡ map equation_of laws.old ++ map (law_at (sides_from sides.now)) words.now) }
{
    for word in words {
        laws.push(law_at(alloc, sides, word.as_slice())?)?;
    }
    Ok(())
}

/// Appends the law of these equal shapes for the word where it is listed.
fn append_if_kept(
    alloc: Global,
    laws: &mut Items<Law>,
    sides: &Sides,
    word: &[u8],
) -> Result<(), AllocError>
    requires fit { length word.now ≡ shape_leaves (shape_from sides.now.left)
        + shape_leaves (shape_from sides.now.right) }
    requires short { length word.now ≤ 8 }
    ensures { OnOk result (map equation_of laws.new
        ≡ map equation_of laws.old ++ map (law_at (sides_from sides.now))
        (filter (is_kept (shape_leaves (shape_from sides.now.left))) (word.now ∷ []))) }
{
    if is_kept(word, sides.left.leaves()) {
        laws.push(law_at(alloc, sides, word)?)?;
        return Ok(());
    }
    Ok(())
}

/// Appends the law of these equal shapes for each of the words for which it is listed.
fn append_kept(
    alloc: Global,
    laws: &mut Items<Law>,
    sides: &Sides,
    words: &[Items<u8>],
) -> Result<(), AllocError>
    requires fit { All (λ w. length w ≡ shape_leaves (shape_from sides.now.left)
        + shape_leaves (shape_from sides.now.right)) words.now }
    requires short { shape_leaves (shape_from sides.now.left) + shape_leaves (shape_from sides.now.right) ≤ 8 }
    ensures { OnOk result (map equation_of laws.new
        ≡ map equation_of laws.old ++ map (law_at (sides_from sides.now))
        (filter (is_kept (shape_leaves (shape_from sides.now.left))) words.now)) }
{
    for word in words {
        append_if_kept(alloc, laws, sides, word.as_slice())?;
    }
    Ok(())
}

/// Appends the listed laws of these shapes, in order; `in_order` are the words of their leaves.
fn append_laws_at(
    alloc: Global,
    laws: &mut Items<Law>,
    sides: &Sides,
    in_order: &[Items<u8>],
) -> Result<(), AllocError>
    requires short { shape_leaves (shape_from sides.now.left) + shape_leaves (shape_from sides.now.right) ≤ 8 }
    requires words { in_order.now ≡ words (shape_leaves (shape_from sides.now.left)
        + shape_leaves (shape_from sides.now.right)) 0 }
    ensures { OnOk result (map equation_of laws.new ≡ map equation_of laws.old ++ laws_at (sides_from sides.now)) }
{
    match sides.left.shape_cmp(&sides.right) {
        Ordering::Less => append_all(alloc, laws, sides, in_order),
        Ordering::Equal => append_kept(alloc, laws, sides, in_order),
        Ordering::Greater => Ok(()),
    }
}

/// Appends the listed laws of this many operations, in order.
fn append_laws_of(alloc: Global, laws: &mut Items<Law>, ops: usize) -> Result<(), AllocError>
    requires { ops ≤ 5 }
    ensures { OnOk result (map equation_of laws.new ≡ map equation_of laws.old ++ laws_of ops) }
{
    let pairs = pairs(alloc, ops)?;
    let words = words(alloc, ops + 2, 0)?;
    for sides in pairs.as_slice() {
        append_laws_at(alloc, laws, sides, words.as_slice())?;
    }
    Ok(())
}

/// The listed laws of at most this many operations, in order.
pub fn listed_upto(alloc: Global, order: u8) -> Result<Items<Law>, AllocError>
    requires { order ≤ 5 }
    ensures { IfOk result (λ laws. map equation_of laws ≡ laws_upto order) }
{
    let mut laws = Items::new(alloc);
    for ops in 0..order as usize + 1 {
        append_laws_of(alloc, &mut laws, ops)?;
    }
    Ok(laws)
}
