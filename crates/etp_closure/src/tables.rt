// Loops over the rows of reached and covered pairs.
ghost use Rattle.std.specs.Prelude.{◌≡◌, ◌≢◌, ℕ, ◌<◌, ◌≤◌, true, false, ◌&&◌, ◌||◌, nat_eq, nat_lt, nat_le, if◌then◌else◌, is_ok, All, Some, IfSome, length};
ghost use Rattle.etp_bits.specs.Bits.{bit, SameSizes};
ghost use Rattle.std.specs.List.{list_any};
ghost use Rattle.etp_theory.specs.LawNumbers.{IsLaw};
ghost use Rattle.etp_closure.specs.Closures.{IsKept, slot_of, bit_by_slots};
ghost use Rattle.etp_closure.specs.Tables.{IsSquare, IsMarks, IsTurned, IsClosed, MarksEdge, MarksLaw, MarksUncovered, moved_along, reached_from, image_of, row_of};

use crate::slots::{kept_slot, slot_at};
use etp_bits::Matrix;
use std::alloc::AllocError;

// Marks in a row the laws whose rows have this column on.
fn mark_column(marks: &mut Matrix, into: u32, matrix: &Matrix, column: u32)
    requires into_in { into < marks.old.rows }
    requires wide { matrix.now.rows ≤ marks.old.columns }
    requires column_in { column < matrix.now.columns }
    ensures sizes { SameSizes marks.old marks.new }
    ensures bits { (r c : ℕ) → bit marks.new r c
        ≡ (bit marks.old r c || (nat_eq r into
        && (nat_lt c matrix.now.rows && bit matrix.now c column))) }
{
    for row in 0..matrix.rows() {
        if matrix.get(row, column) {
            marks.set(into, row);
        }
    }
}

// Adds an edge between two laws by their slots to the reached pairs: all that reach the first reach
// all that the second reaches. Only those that don't reach the second yet, and what the first doesn't
// reach yet, are marked and joined.
pub(crate) fn link_reached(
    reached: &mut Matrix,
    reaching: &mut Matrix,
    marks: &mut Matrix,
    from: u32,
    to: u32,
)
    requires from_in { from < marks.old.columns }
    requires to_in { to < marks.old.columns }
    requires reached_size { IsSquare reached.old marks.old.columns }
    requires reaching_size { IsSquare reaching.old marks.old.columns }
    requires marks_rows { marks.old.rows ≡ 4 }
    requires turned { IsTurned reached.old reaching.old }
    requires onward { (x y z : ℕ) → bit reached.old x y ≡ true → bit reached.old y z ≡ true
        → bit reached.old x z ≡ true }
    ensures reached_size { IsSquare reached.new marks.old.columns }
    ensures reaching_size { IsSquare reaching.new marks.old.columns }
    ensures marks_size { SameSizes marks.old marks.new }
    ensures turned { IsTurned reached.new reaching.new }
    ensures reached { (r c : ℕ) → bit reached.new r c
        ≡ (bit reached.old r c || (bit reached.old r from && bit reached.old to c)) }
    ensures marks { MarksEdge marks.new (bit reached.old) from to }
    ensures marked_in { (r c : ℕ) → bit marks.new r c ≡ true → c < marks.old.columns }
{
    marks.clear();
    marks.join_difference(0, reaching, from, to);
    marks.join_difference(1, reached, to, from);
    reached.join_marked(marks, 0, 1);
    reaching.join_marked(marks, 1, 0);
}

// Moves the covered pairs along an edge between two laws by their slots, where there are any: on to
// the laws of the second row of marks, and back to those of the first.
pub(crate) fn link_covered(
    covered: &mut Matrix,
    marks: &mut Matrix,
    has_covered: bool,
    from: u32,
    to: u32,
)
    requires from_in { from < marks.old.columns }
    requires to_in { to < marks.old.columns }
    requires covered_size { IsSquare covered.old marks.old.columns }
    requires marks_rows { marks.old.rows ≡ 4 }
    requires none_covered { has_covered ≡ false → (r c : ℕ) → bit covered.old r c ≡ false }
    requires third { (c : ℕ) → bit marks.old 2 c ≡ false }
    requires fourth { (c : ℕ) → bit marks.old 3 c ≡ false }
    requires marked_in { (r c : ℕ) → bit marks.old r c ≡ true → c < marks.old.columns }
    ensures covered_size { IsSquare covered.new marks.old.columns }
    ensures marks_size { SameSizes marks.old marks.new }
    ensures covered { (r c : ℕ) → bit covered.new r c
        ≡ moved_along (bit marks.old 0) (bit marks.old 1) (bit covered.old) from to r c }
{
    if !has_covered {
        return;
    }
    marks.join_row(2, covered, from);
    covered.join_marked(marks, 1, 2);
    mark_column(marks, 3, covered, to);
    covered.join_marked(marks, 3, 0);
}

// Turns on the bits of laws with themselves, for the slots from one on.
pub(crate) fn reach_themselves(reached: &mut Matrix, first: u32, count: u32)
    requires order { first ≤ count }
    requires tall { count ≤ reached.old.rows }
    requires wide { count ≤ reached.old.columns }
    ensures sizes { SameSizes reached.old reached.new }
    ensures bits { (r c : ℕ) → bit reached.new r c
        ≡ (bit reached.old r c || (nat_eq r c && (nat_le first r && nat_lt r count))) }
{
    for slot in first..count {
        reached.set(slot, slot);
    }
}

// Makes the three tables larger, or leaves them with their sizes.
pub(crate) fn grow_all(
    reached: &mut Matrix,
    reaching: &mut Matrix,
    covered: &mut Matrix,
    marks: &mut Matrix,
    before: u32,
    count: u32,
) -> Result<(), AllocError>
    requires more { before ≤ count }
    requires reached_size { IsSquare reached.old before }
    requires reaching_size { IsSquare reaching.old before }
    requires covered_size { IsSquare covered.old before }
    requires marks_size { IsMarks marks.old before }
    ensures reached_size { IsSquare reached.new (if is_ok result then count else before) }
    ensures reaching_size { IsSquare reaching.new (if is_ok result then count else before) }
    ensures covered_size { IsSquare covered.new (if is_ok result then count else before) }
    ensures marks_size { IsMarks marks.new (if is_ok result then count else before) }
    ensures reached { (r c : ℕ) → bit reached.new r c ≡ bit reached.old r c }
    ensures reaching { (r c : ℕ) → bit reaching.new r c ≡ bit reaching.old r c }
    ensures covered { (r c : ℕ) → bit covered.new r c ≡ bit covered.old r c }
{
    grow_both(reached, reaching, before, count)?;
    if grow_pairs(covered, marks, before, count).is_err() {
        reached.shrink(before, before);
        reaching.shrink(before, before);
        return Err(AllocError);
    }
    Ok(())
}

// Makes two tables larger, or leaves them with their sizes.
fn grow_both(
    first: &mut Matrix,
    second: &mut Matrix,
    before: u32,
    count: u32,
) -> Result<(), AllocError>
    requires more { before ≤ count }
    requires first_size { IsSquare first.old before }
    requires second_size { IsSquare second.old before }
    ensures first_size { IsSquare first.new (if is_ok result then count else before) }
    ensures second_size { IsSquare second.new (if is_ok result then count else before) }
    ensures first { (r c : ℕ) → bit first.new r c ≡ bit first.old r c }
    ensures second { (r c : ℕ) → bit second.new r c ≡ bit second.old r c }
{
    first.grow(count, count)?;
    if second.grow(count, count).is_err() {
        first.shrink(before, before);
        return Err(AllocError);
    }
    Ok(())
}

// Makes the covered pairs and the marks larger, or leaves them with their sizes.
fn grow_pairs(
    covered: &mut Matrix,
    marks: &mut Matrix,
    before: u32,
    count: u32,
) -> Result<(), AllocError>
    requires more { before ≤ count }
    requires covered_size { IsSquare covered.old before }
    requires marks_size { IsMarks marks.old before }
    ensures covered_size { IsSquare covered.new (if is_ok result then count else before) }
    ensures marks_size { IsMarks marks.new (if is_ok result then count else before) }
    ensures covered { (r c : ℕ) → bit covered.new r c ≡ bit covered.old r c }
{
    covered.grow(count, count)?;
    if marks.grow(4, count).is_err() {
        covered.shrink(before, before);
        return Err(AllocError);
    }
    Ok(())
}

// The law itself, or its dual.
fn image(duals: &[u32], dual: bool, law: u32) -> u32
    requires { IsLaw (length duals.now) law }
    ensures { result ≡ image_of duals.now dual law }
{
    if dual { duals[law as usize - 1] } else { law }
}

// Marks in the second row, which has no mark yet, the columns that are on in a row of a law of a list,
// or in one of its dual. The rows of the matrix are closed, so that a law that is marked adds nothing.
pub(crate) fn mark_joined(
    marks: &mut Matrix,
    matrix: &Matrix,
    slots: &[u32],
    duals: &[u32],
    dual: bool,
    list: &[u32],
)
    requires marks_rows { 1 < marks.old.rows }
    requires narrow { matrix.now.columns ≤ marks.old.columns }
    requires unmarked { (c : ℕ) → bit marks.old 1 c ≡ false }
    requires onward { (x y z : ℕ) → bit matrix.now x y ≡ true → bit matrix.now y z ≡ true → bit matrix.now x z ≡ true }
    requires list_in { All (IsLaw (length duals.now)) list.now }
    requires kept { All (λ law. IsKept slots.now (image_of duals.now dual law)) list.now }
    requires rows { (law slot : ℕ) → slot_of slots.now law ≡ Some slot
        → (slot < matrix.now.rows) × (slot < marks.old.columns) }
    ensures sizes { SameSizes marks.old marks.new }
    ensures others { (r c : ℕ) → r ≢ 1 → bit marks.new r c ≡ bit marks.old r c }
    ensures bits { (c : ℕ) → bit marks.new 1 c
        ≡ list_any (λ law. bit matrix.now (row_of slots.now (image_of duals.now dual law)) c)
        list.now }
{
    for law in list {
        let slot = kept_slot(slots, image(duals, dual, *law));
        if !marks.get(1, slot) {
            marks.join_row(1, matrix, slot);
        }
    }
}

// Marks in the first row, which has no mark yet, what the laws of a list reach, or what their duals
// reach, but for laws that are covered against all of the second row's marks already.
pub(crate) fn mark_uncovered(
    marks: &mut Matrix,
    reached: &Matrix,
    covered: &Matrix,
    slots: &[u32],
    duals: &[u32],
    dual: bool,
    list: &[u32],
)
    requires marks_rows { 1 < marks.old.rows }
    requires narrow { reached.now.columns ≤ marks.old.columns }
    requires wide { marks.old.columns ≤ covered.now.columns }
    requires unmarked { (c : ℕ) → bit marks.old 0 c ≡ false }
    requires closed { IsClosed (bit reached.now) (bit covered.now) }
    requires list_in { All (IsLaw (length duals.now)) list.now }
    requires kept { All (λ law. IsKept slots.now (image_of duals.now dual law)) list.now }
    requires rows { (law slot : ℕ) → slot_of slots.now law ≡ Some slot
        → (slot < reached.now.rows) × (slot < covered.now.rows) × (slot < reached.now.columns) }
    ensures sizes { SameSizes marks.old marks.new }
    ensures line { (c : ℕ) → bit marks.new 1 c ≡ bit marks.old 1 c }
    ensures uncovered { MarksUncovered (bit marks.new 0) (bit marks.old 1) (bit covered.now)
        (λ c. list_any (λ law. bit reached.now (row_of slots.now (image_of duals.now dual law)) c)
        list.now) }
{
    let mut found = None;
    for law in list {
        let slot = kept_slot(slots, image(duals, dual, *law));
        found = mark_law(marks, reached, covered, slot, found);
    }
}

// Marks in the first row what a law reaches, unless it is marked itself or covered against all of the
// second row's marks, as the first law that was found to be covered and all that it reaches are. Gives
// that law.
fn mark_law(
    marks: &mut Matrix,
    reached: &Matrix,
    covered: &Matrix,
    slot: u32,
    found: Option<u32>,
) -> Option<u32>
    requires marks_rows { 1 < marks.old.rows }
    requires narrow { reached.now.columns ≤ marks.old.columns }
    requires wide { marks.old.columns ≤ covered.now.columns }
    requires row_in { slot < reached.now.rows }
    requires column_in { slot < reached.now.columns }
    requires in_covered { slot < covered.now.rows }
    requires found_in { IfSome found (λ row. row < reached.now.rows) }
    ensures sizes { SameSizes marks.old marks.new }
    ensures line { (c : ℕ) → bit marks.new 1 c ≡ bit marks.old 1 c }
    ensures found_in { IfSome result (λ row. row < reached.now.rows) }
    ensures marked { MarksLaw (bit marks.old 0) (bit marks.new 0) (bit marks.old 1)
        (bit reached.now) (bit covered.now) slot found result }
{
    if marks.get(0, slot) || is_reached_from(reached, found, slot) {
        return found;
    }
    if covered.has_all(slot, marks, 1) {
        return match found {
            None => Some(slot),
            Some(first) => Some(first),
        };
    }
    marks.join_row(0, reached, slot);
    found
}

// Whether there is a first law, by its slot, and the second is reached from it.
fn is_reached_from(reached: &Matrix, first: Option<u32>, second: u32) -> bool
    requires first_in { IfSome first (λ row. row < reached.now.rows) }
    requires second_in { second < reached.now.columns }
    ensures { result ≡ reached_from (bit reached.now) first second }
{
    match first {
        None => false,
        Some(first) => reached.get(first, second),
    }
}

// The bit of two laws by their slots, or another answer where one of them has none.
pub(crate) fn look_up(matrix: &Matrix, slots: &[u32], e: u32, f: u32, otherwise: bool) -> bool
    requires e_in { IsLaw (length slots.now) e }
    requires f_in { IsLaw (length slots.now) f }
    requires rows { (law slot : ℕ) → slot_of slots.now law ≡ Some slot → slot < matrix.now.rows }
    requires columns { (law slot : ℕ) → slot_of slots.now law ≡ Some slot → slot < matrix.now.columns }
    ensures { result ≡ bit_by_slots matrix.now (slot_of slots.now e) (slot_of slots.now f) otherwise }
{
    match slot_at(slots, e) {
        None => otherwise,
        Some(row) => match slot_at(slots, f) {
            None => otherwise,
            Some(column) => matrix.get(row, column),
        },
    }
}
