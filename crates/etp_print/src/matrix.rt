// The texts of refusals of matrix-linear magmas.
ghost use Rattle.std.specs.Prelude.{◌≡◌, ◌≤◌, ◌++◌, IfOk, OnOk, codes, decimal, take};
ghost use Rattle.etp_lines.specs.MatrixLines.{part_word};
ghost use Rattle.etp_print.specs.RefusalTexts.{comma_behind, with_commas, unit_vector_text, vectors_text, matrix_entry_text, matrix_refusal};

use crate::refusal::append_with;
use etp_matrix::{MatrixFailure, MatrixRefusal, Part};
use etp_term::Term;
use etp_text::Text;
use std::alloc::{AllocError, Global};

// Appends the name of a part.
fn append_part(text: &mut Text, part: Part) -> Result<(), AllocError>
    ensures { OnOk result (text.new ≡ text.old ++ part_word part) }
{
    match part {
        Part::A => text.append(b"a"),
        Part::B => text.append(b"b"),
        Part::C => text.append(b"c"),
    }
}

// Appends a part, and the row of a number in it.
fn append_row(text: &mut Text, part: Part, row: u8) -> Result<(), AllocError>
    ensures { OnOk result (text.new ≡ text.old
        ++ (codes "matrix entry " ++ part_word part ++ codes " row " ++ decimal row)) }
{
    text.append(b"matrix entry ")?;
    append_part(text, part)?;
    append_with(text, b" row ", u32::from(row))
}

// Appends the column of a number, and its value.
fn append_column(text: &mut Text, column: u8, value: u32) -> Result<(), AllocError>
    ensures { OnOk result (text.new ≡ text.old
        ++ (codes " column " ++ decimal column ++ codes " value " ++ decimal value)) }
{
    append_with(text, b" column ", u32::from(column))?;
    append_with(text, b" value ", value)
}

// Appends the place of a number that is out of range, and its value.
fn append_entry(
    text: &mut Text,
    part: Part,
    row: u8,
    column: u8,
    value: u32,
) -> Result<(), AllocError>
    ensures { OnOk result (text.new ≡ text.old ++ matrix_entry_text part row column value) }
{
    append_row(text, part, row)?;
    append_column(text, column, value)
}

// Appends each number behind a comma.
fn append_behind_commas(text: &mut Text, numbers: &[u32]) -> Result<(), AllocError>
    ensures { OnOk result (text.new ≡ text.old ++ comma_behind numbers.now) }
{
    for number in numbers {
        text.append(b",")?;
        text.append_number(u64::from(*number))?;
    }
    Ok(())
}

// Appends numbers with a comma between two.
fn append_with_commas(text: &mut Text, numbers: &[u32]) -> Result<(), AllocError>
    ensures { OnOk result (text.new ≡ text.old ++ with_commas numbers.now) }
{
    match numbers {
        [] => Ok(()),
        [first, rest @ ..] => {
            text.append_number(u64::from(*first))?;
            append_behind_commas(text, rest)
        }
    }
}

// Appends the assignment at which all are zero but this variable, which is this unit vector.
pub(crate) fn append_unit_vector(text: &mut Text, at: Option<(u8, u8)>) -> Result<(), AllocError>
    ensures { OnOk result (text.new ≡ text.old ++ unit_vector_text at) }
{
    let Some((variable, column)) = at else {
        return text.append(b" zero");
    };
    text.append(b" ")?;
    text.append_term(&Term::Var(variable))?;
    append_with(text, b"=e", u32::from(column))
}

// Appends words and a vector.
fn append_vector(text: &mut Text, words: &[u8], vector: &[u32]) -> Result<(), AllocError>
    ensures { OnOk result (text.new ≡ text.old ++ (words.now ++ with_commas vector.now)) }
{
    text.append(words)?;
    append_with_commas(text, vector)
}

// Appends the vectors of both sides, which have so many numbers.
pub(crate) fn append_vectors(
    text: &mut Text,
    size: u8,
    failure: &MatrixFailure,
) -> Result<(), AllocError>
    requires { size ≤ 4 }
    ensures { OnOk result (text.new ≡ text.old ++ vectors_text size failure.now) }
{
    let size = usize::from(size);
    append_vector(text, b" left ", &failure.left[..size])?;
    append_vector(text, b" right ", &failure.right[..size])
}

// Appends why a matrix-linear magma is refused.
pub(crate) fn append_matrix_refusal(
    text: &mut Text,
    size: u8,
    refusal: &MatrixRefusal,
) -> Result<(), AllocError>
    requires { size ≤ 4 }
    ensures { OnOk result (text.new ≡ text.old ++ matrix_refusal size refusal.now) }
{
    match refusal {
        MatrixRefusal::Modulus { value } => append_with(text, b"modulus value ", *value),
        MatrixRefusal::Entry {
            part,
            row,
            column,
            value,
        } => append_entry(text, *part, *row, *column, *value),
        MatrixRefusal::HoldsFails { law, failure } => {
            append_with(text, b"holds fails law ", *law)?;
            append_unit_vector(text, failure.at)?;
            append_vectors(text, size, failure)
        }
        MatrixRefusal::FailsHolds { law } => append_with(text, b"fails holds law ", *law),
    }
}

/// Why a matrix-linear magma over vectors of `size` numbers is refused.
pub fn matrix_text(alloc: Global, size: u8, refusal: &MatrixRefusal) -> Result<Text, AllocError>
    requires { size ≤ 4 }
    ensures { IfOk result (λ text. text ≡ matrix_refusal size refusal.now) }
{
    let mut text = Text::empty(alloc);
    append_matrix_refusal(&mut text, size, refusal)?;
    Ok(text)
}
