//! Vectors of four numbers modulo a number, and matrices column by column.
ghost use Rattle.std.specs.Prelude.{◌≡◌, ℕ, ◌+◌, ◌*◌, ◌%◌, ◌<◌, ◌≤◌, slice_index};
ghost use Rattle.etp_matrix.specs.Magmas.{IsModulus, sum_below};
ghost use Rattle.etp_matrix.specs.Values.{plus, unit, column, by_columns};
ghost use Rattle.etp_matrix.specs.Walks.{IsVector, AreVectors, applied, wide, wide_column};

use crate::parts::{Columns, Vector};

/// The sum of two numbers.
fn sum_below_modulus(x: u32, y: u32, modulus: u32) -> u32
    requires modulus { IsModulus modulus }
    requires x { x < modulus }
    requires y { y < modulus }
    ensures { result ≡ (x + y) % modulus }
{
    let sum = x + y;
    if sum < modulus { sum } else { sum - modulus }
}

/// The sum of two vectors.
pub(crate) fn sum(x: &Vector, y: &Vector, modulus: u32) -> Vector
    requires modulus { IsModulus modulus }
    requires x { IsVector modulus 4 x.now }
    requires y { IsVector modulus 4 y.now }
    ensures { result ≡ plus modulus 4 x.now y.now }
{
    [
        sum_below_modulus(x[0], y[0], modulus),
        sum_below_modulus(x[1], y[1], modulus),
        sum_below_modulus(x[2], y[2], modulus),
        sum_below_modulus(x[3], y[3], modulus),
    ]
}

/// The sum of two matrices.
pub(crate) fn sum_of_matrices(p: &Columns, q: &Columns, modulus: u32) -> Columns
    requires modulus { IsModulus modulus }
    requires p { AreVectors modulus p.now }
    requires q { AreVectors modulus q.now }
    ensures { (k : ℕ) → k < 4 → column result k ≡ plus modulus 4 (column p.now k) (column q.now k) }
{
    [
        sum(&p[0], &q[0], modulus),
        sum(&p[1], &q[1], modulus),
        sum(&p[2], &q[2], modulus),
        sum(&p[3], &q[3], modulus),
    ]
}

/// A row of a matrix times a vector.
fn row_times(matrix: &Columns, x: &Vector, row: usize, modulus: u32) -> u32
    requires modulus { IsModulus modulus }
    requires matrix { AreVectors modulus matrix.now }
    requires x { IsVector modulus 4 x.now }
    requires row { row < 4 }
    ensures { result ≡ sum_below 4 (λ k. by_columns matrix.now row k * slice_index x.now k) % modulus }
{
    let sum = matrix[0][row] as u64 * x[0] as u64
        + matrix[1][row] as u64 * x[1] as u64
        + matrix[2][row] as u64 * x[2] as u64
        + matrix[3][row] as u64 * x[3] as u64;
    (sum % modulus as u64) as u32
}

/// A matrix times a vector.
pub(crate) fn apply(matrix: &Columns, x: &Vector, modulus: u32) -> Vector
    requires modulus { IsModulus modulus }
    requires matrix { AreVectors modulus matrix.now }
    requires x { IsVector modulus 4 x.now }
    ensures { result ≡ applied modulus matrix.now x.now }
{
    [
        row_times(matrix, x, 0, modulus),
        row_times(matrix, x, 1, modulus),
        row_times(matrix, x, 2, modulus),
        row_times(matrix, x, 3, modulus),
    ]
}

/// The product of two matrices, which takes a vector first through the second.
pub(crate) fn product(p: &Columns, q: &Columns, modulus: u32) -> Columns
    requires modulus { IsModulus modulus }
    requires p { AreVectors modulus p.now }
    requires q { AreVectors modulus q.now }
    ensures { (k : ℕ) → k < 4 → column result k ≡ applied modulus p.now (column q.now k) }
{
    [
        apply(p, &q[0], modulus),
        apply(p, &q[1], modulus),
        apply(p, &q[2], modulus),
        apply(p, &q[3], modulus),
    ]
}

/// A number of a matrix that is given row by row, and 0 outside it.
fn entry_or_zero(matrix: &[u32; 16], size: u8, row: u8, column: u8) -> u32
    requires { size ≤ 4 }
    ensures { result ≡ wide size matrix.now row column }
{
    if row < size && column < size {
        matrix[row as usize * size as usize + column as usize]
    } else {
        0
    }
}

/// A column of a matrix that is given row by row.
fn column_of_rows(matrix: &[u32; 16], size: u8, column: u8) -> Vector
    requires { size ≤ 4 }
    ensures { result ≡ wide_column size matrix.now column }
{
    [
        entry_or_zero(matrix, size, 0, column),
        entry_or_zero(matrix, size, 1, column),
        entry_or_zero(matrix, size, 2, column),
        entry_or_zero(matrix, size, 3, column),
    ]
}

/// The columns of a matrix that is given row by row.
pub(crate) fn columns_of_rows(matrix: &[u32; 16], size: u8) -> Columns
    requires { size ≤ 4 }
    ensures { (k : ℕ) → k < 4 → column result k ≡ wide_column size matrix.now k }
{
    [
        column_of_rows(matrix, size, 0),
        column_of_rows(matrix, size, 1),
        column_of_rows(matrix, size, 2),
        column_of_rows(matrix, size, 3),
    ]
}

/// The matrix that changes nothing; the number one is 0 modulo 1.
pub(crate) fn identity(modulus: u32) -> Columns
    requires { IsModulus modulus }
    ensures { (k : ℕ) → k < 4 → column result k ≡ unit modulus 4 k }
{
    let one = 1 % modulus;
    [
        [one, 0, 0, 0],
        [0, one, 0, 0],
        [0, 0, one, 0],
        [0, 0, 0, one],
    ]
}
