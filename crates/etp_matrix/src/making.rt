ghost use Rattle.std.specs.Prelude.{◌≡◌, ◌≤◌, ◌++◌, IfOk, OnOk, IfErr, MatchOption, length, drop};
ghost use Rattle.etp_matrix.specs.Magmas.{IsMatrixMagma, IsModulus, IsShape, AreBelow};
ghost use Rattle.etp_matrix.specs.Linears.{magma_of};
ghost use Rattle.etp_matrix.specs.Judgements.{IsOutOfRange};
ghost use Rattle.etp_matrix.specs.Making.{IsFirstAbove, IsEntry};

use crate::matrix_linear::MatrixLinear;
use crate::parts::Part;
use crate::refusal::MatrixRefusal;

impl MatrixLinear {
    /// The magma with these matrices, row by row.
    pub fn of(
        modulus: u32,
        size: u8,
        a: &[u32],
        b: &[u32],
        c: &[u32],
    ) -> Result<MatrixLinear, MatrixRefusal>
        requires { IsShape size a.now b.now c.now }
        ensures ok { IfOk result (λ linear. magma_of linear
            ≡ record { modulus = modulus; size = size; a = a.now; b = b.now; c = c.now }) }
        ensures in_range { IfOk result (λ linear. IsMatrixMagma (magma_of linear)) }
        ensures err { IfErr result (λ r. IsOutOfRange
            (record { modulus = modulus; size = size; a = a.now; b = b.now; c = c.now }) r) }
    {
        if modulus < 1 || modulus > 1000000 {
            return Err(MatrixRefusal::Modulus { value: modulus });
        }
        check_below(Part::A, a, size, modulus)?;
        check_below(Part::B, b, size, modulus)?;
        check_below(Part::C, c, 1, modulus)?;
        let mut linear = MatrixLinear {
            modulus,
            size,
            a: [0; 16],
            b: [0; 16],
            c: [0; 4],
        };
        fill(&mut linear.a, a);
        fill(&mut linear.b, b);
        fill(&mut linear.c, c);
        Ok(linear)
    }
}

/// Whether all numbers of a part are below the modulus; the width is how many a row has.
fn check_below(part: Part, entries: &[u32], width: u8, modulus: u32) -> Result<(), MatrixRefusal>
    requires width { 1 ≤ width }
    requires few { length entries.now ≤ 16 }
    ensures ok { OnOk result (AreBelow modulus entries.now) }
    ensures err { IfErr result (λ r. IsEntry part entries.now width modulus r) }
{
    match first_above(entries, modulus) {
        None => Ok(()),
        Some(n) => Err(MatrixRefusal::Entry {
            part,
            row: n as u8 / width,
            column: n as u8 % width,
            value: entries[n],
        }),
    }
}

/// The place of the first number that isn't below the modulus.
fn first_above(entries: &[u32], modulus: u32) -> Option<usize>
    ensures { MatchOption result (AreBelow modulus entries.now) (λ n. IsFirstAbove modulus entries.now n) }
{
    for (n, value) in entries.iter().enumerate() {
        if *value >= modulus {
            return Some(n);
        }
    }
    None
}

/// Writes numbers over the first ones.
fn fill(to: &mut [u32], from: &[u32])
    requires { length from.now ≤ length to.old }
    ensures { to.new ≡ from.now ++ drop (length from.now) to.old }
{
    for (n, value) in from.iter().enumerate() {
        to[n] = *value;
    }
}
