ghost use Rattle.std.specs.Prelude.{◌≡◌, ℕ, ◌+◌, ◌*◌, ◌/◌, ◌^◌, ◌<◌, ◌≤◌, not, ◌&&◌, ◌||◌, nat_eq, nat_lt, IsTrue, ◌↔◌, IfOk, OnOk, OnErr, length, vec_len};
ghost use Rattle.etp_bits.specs.Bits.{bit, IsBlank, Resizes, SameSizes};
ghost use Rattle.etp_bits.specs.Counts.{count_below};
ghost use Rattle.etp_bits.specs.Words.{lit, Spreads, Regrows};

use crate::words::{
    any_without, count_on, count_without, join_to_rows, join_within, join_without, join_words,
};
use std::alloc::{AllocError, Global};
use std::marker::Model;

/// A matrix of bits, with rows and columns counted from 0.
#[derive(Drop)]
pub struct Matrix {
    rows: u32,
    columns: u32,
    stride: usize,
    words: Vec<u64>,
}

impl Model for Matrix {
    ghost use Rattle.std.specs.Prelude.{vec_len};
    ghost use Rattle.etp_bits.specs.Bits.{Bits};
    ghost use Rattle.etp_bits.specs.Words.{bits_of, IsLaidOut};

    ghost Value = { Bits };

    ghost view = { λ m. bits_of m.rows m.columns m.stride m.words.items };

    ghost invariant = { λ m. IsLaidOut m.rows m.columns m.stride (vec_len m.words) m.words.items };
}

// How many words hold so many bits.
fn words_for(columns: u32) -> usize
    ensures { result ≡ (columns + 63) / 64 }
{
    (columns as usize + 63) / 64
}

// The rows of a matrix, moved to rows that are so much wider.
fn spread(
    alloc: Global,
    words: &[u64],
    rows: usize,
    stride: usize,
    wider: usize,
) -> Result<Vec<u64>, AllocError>
    requires size { length words.now ≡ rows * stride }
    requires wide { stride ≤ wider }
    requires few { rows < 2 ^ 32 }
    requires narrow { wider ≤ 2 ^ 26 }
    ensures rows { IfOk result (λ v. Spreads words.now v.items rows stride wider) }
    ensures len { IfOk result (λ v. vec_len v ≡ rows * wider) }
{
    let mut spread = Vec::with_capacity(alloc, rows * wider)?;
    for row in 0..rows {
        spread.extend_from_slice(&words[row * stride..row * stride + stride])?;
        spread.resize((row + 1) * wider, 0)?;
    }
    Ok(spread)
}

// A width of rows with so many words at least, which leaves room for more where it has to change.
fn stride_for(stride: usize, needed: usize) -> usize
    requires narrow { stride ≤ 2 ^ 26 }
    requires needed { needed ≤ 2 ^ 26 }
    ensures kept { stride ≤ result }
    ensures enough { needed ≤ result }
    ensures narrow { result ≤ 2 ^ 26 }
{
    if needed <= stride {
        return stride;
    }
    needed.max((stride + stride / 4).min(1 << 26))
}

// Makes the rows of a matrix so much wider, and then adds rows whose words are 0.
fn regrow(
    words: &mut Vec<u64>,
    old_rows: usize,
    stride: usize,
    rows: usize,
    wider: usize,
) -> Result<(), AllocError>
    requires size { vec_len words.old ≡ old_rows * stride }
    requires wide { stride ≤ wider }
    requires narrow { wider ≤ 2 ^ 26 }
    requires more { old_rows ≤ rows }
    requires few { rows < 2 ^ 32 }
    ensures ok { OnOk result (Regrows words.old.items words.new.items old_rows stride rows wider) }
    ensures len { OnOk result (vec_len words.new ≡ rows * wider) }
    ensures err { OnErr result (words.new.items ≡ words.old.items) }
    ensures err_len { OnErr result (vec_len words.new ≡ vec_len words.old) }
{
    if stride < wider {
        let alloc = *words.allocator();
        let mut wide = spread(alloc, words, old_rows, stride, wider)?;
        wide.resize(rows * wider, 0)?;
        *words = wide;
        return Ok(());
    }
    words.resize(rows * wider, 0)?;
    Ok(())
}

impl Matrix {
    /// A matrix with all bits off.
    pub fn start(alloc: Global, rows: u32, columns: u32) -> Result<Matrix, AllocError>
        ensures { IfOk result (λ matrix. IsBlank matrix rows columns) }
    {
        let stride = words_for(columns);
        let words = vec![in alloc; 0u64; rows as usize * stride]?;
        Ok(Matrix {
            rows,
            columns,
            stride,
            words,
        })
    }

    /// Makes the matrix larger. Old bits stay, and new ones are off.
    pub fn grow(&mut self, rows: u32, columns: u32) -> Result<(), AllocError>
        requires more_rows { self.old.rows ≤ rows }
        requires more_columns { self.old.columns ≤ columns }
        ensures ok { OnOk result (Resizes self.old self.new rows columns) }
        ensures err { OnErr result (self.new ≡ self.old) }
    {
        let stride = stride_for(self.stride, words_for(columns));
        regrow(
            &mut self.words,
            self.rows as usize,
            self.stride,
            rows as usize,
            stride,
        )?;
        self.stride = stride;
        self.rows = rows;
        self.columns = columns;
        Ok(())
    }

    /// Takes away the last rows and columns, in which all bits are off.
    pub fn shrink(&mut self, rows: u32, columns: u32)
        requires fewer_rows { rows ≤ self.old.rows }
        requires fewer_columns { columns ≤ self.old.columns }
        requires off_past { (r c : ℕ) → IsTrue (bit self.old r c) → (r < rows) × (c < columns) }
        ensures { Resizes self.old self.new rows columns }
    {
        self.words.truncate(rows as usize * self.stride);
        self.rows = rows;
        self.columns = columns;
    }

    /// How many rows there are.
    pub fn rows(&self) -> u32
        ensures { result ≡ self.now.rows }
    {
        self.rows
    }

    /// The bit in a row and a column.
    pub fn get(&self, row: u32, column: u32) -> bool
        requires row_in { row < self.now.rows }
        requires column_in { column < self.now.columns }
        ensures { result ≡ bit self.now row column }
    {
        let word = self.words[row as usize * self.stride + column as usize / 64];
        (word >> (column % 64)) & 1 == 1
    }

    /// Turns a bit on.
    pub fn set(&mut self, row: u32, column: u32)
        requires row_in { row < self.old.rows }
        requires column_in { column < self.old.columns }
        ensures sizes { SameSizes self.old self.new }
        ensures bits { (r c : ℕ) → bit self.new r c ≡ (bit self.old r c || (nat_eq r row && nat_eq c column)) }
    {
        let place = row as usize * self.stride + column as usize / 64;
        self.words[place] |= 1 << (column % 64);
    }

    /// Joins the bits of a row to another row.
    pub fn or_row(&mut self, into: u32, from: u32)
        requires into_in { into < self.old.rows }
        requires from_in { from < self.old.rows }
        ensures sizes { SameSizes self.old self.new }
        ensures bits { (r c : ℕ) → bit self.new r c ≡ (bit self.old r c || (nat_eq r into && bit self.old from c)) }
    {
        let count = words_for(self.columns);
        join_within(
            &mut self.words,
            into as usize * self.stride,
            from as usize * self.stride,
            count,
        );
    }

    /// Joins the bits of a row of another matrix to a row.
    pub fn join_row(&mut self, into: u32, other: &Matrix, from: u32)
        requires into_in { into < self.old.rows }
        requires from_in { from < other.now.rows }
        requires narrow { other.now.columns ≤ self.old.columns }
        ensures sizes { SameSizes self.old self.new }
        ensures bits { (r c : ℕ) → bit self.new r c ≡ (bit self.old r c || (nat_eq r into && bit other.now from c)) }
    {
        let count = words_for(other.columns);
        join_words(
            &mut self.words,
            into as usize * self.stride,
            &other.words,
            from as usize * other.stride,
            count,
        );
    }

    /// Joins to a row the bits of a row of another matrix that are off in a further row of it.
    pub fn join_difference(&mut self, into: u32, other: &Matrix, from: u32, without: u32)
        requires into_in { into < self.old.rows }
        requires from_in { from < other.now.rows }
        requires without_in { without < other.now.rows }
        requires narrow { other.now.columns ≤ self.old.columns }
        ensures sizes { SameSizes self.old self.new }
        ensures bits { (r c : ℕ) → bit self.new r c
            ≡ (bit self.old r c || (nat_eq r into
            && (bit other.now from c && not (bit other.now without c)))) }
    {
        let count = words_for(other.columns);
        join_without(
            &mut self.words,
            self.stride,
            into as usize,
            &other.words,
            from as usize * other.stride,
            without as usize * other.stride,
            count,
        );
    }

    /// Joins a row of another matrix to each row whose number is a column that is on in a further
    /// row of it.
    pub fn join_marked(&mut self, other: &Matrix, marked: u32, line: u32)
        requires marked_in { marked < other.now.rows }
        requires line_in { line < other.now.rows }
        requires narrow { other.now.columns ≤ self.old.columns }
        requires tall { other.now.columns ≤ self.old.rows }
        ensures sizes { SameSizes self.old self.new }
        ensures bits { (r c : ℕ) → bit self.new r c
            ≡ (bit self.old r c || (bit other.now marked r && bit other.now line c)) }
    {
        let stride = self.stride;
        join_to_rows(&mut self.words, stride, other.row(marked), other.row(line));
    }

    // The words of a row that its columns need.
    fn row(&self, row: u32) -> &[u64]
        requires { row < self.now.rows }
        ensures len { length result.now ≡ (self.now.columns + 63) / 64 }
        ensures bits { (c : ℕ) → (nat_lt (c / 64) (length result.now) && lit result.now 0 c) ≡ bit self.now row c }
        ensures within { (c : ℕ) → IsTrue (bit self.now row c) → c < self.now.columns }
    {
        let start = row as usize * self.stride;
        &self.words[start..start + words_for(self.columns)]
    }

    /// Whether each column that is on in a row of another matrix is on in this one's row.
    pub fn has_all(&self, row: u32, other: &Matrix, other_row: u32) -> bool
        requires row_in { row < self.now.rows }
        requires other_row_in { other_row < other.now.rows }
        requires narrow { other.now.columns ≤ self.now.columns }
        ensures { IsTrue result ↔ ((c : ℕ) → IsTrue (bit other.now other_row c) → IsTrue (bit self.now row c)) }
    {
        let count = words_for(other.columns);
        !any_without(
            &other.words,
            other_row as usize * other.stride,
            &self.words,
            row as usize * self.stride,
            count,
        )
    }

    /// Turns all bits off.
    pub fn clear(&mut self)
        ensures { IsBlank self.new self.old.rows self.old.columns }
    {
        self.words.fill(0);
    }

    /// How many bits of a row are on.
    pub fn count_row(&self, row: u32) -> u32
        requires { row < self.now.rows }
        ensures { result ≡ count_below (bit self.now row) self.now.columns }
    {
        let count = words_for(self.columns);
        count_on(&self.words, row as usize * self.stride, count) as u32
    }

    /// How many columns are on in a row, and off in a row of another matrix.
    pub fn count_without(&self, row: u32, other: &Matrix, other_row: u32) -> u32
        requires row_in { row < self.now.rows }
        requires other_row_in { other_row < other.now.rows }
        requires wide { self.now.columns ≤ other.now.columns }
        ensures { result ≡ count_below (λ column.
            bit self.now row column && not (bit other.now other_row column)) self.now.columns }
    {
        let count = words_for(self.columns);
        count_without(
            &self.words,
            row as usize * self.stride,
            &other.words,
            other_row as usize * other.stride,
            count,
        ) as u32
    }
}
