// The texts of refusals of tables.
ghost use Rattle.std.specs.Prelude.{◌≡◌, ◌++◌, IfOk, OnOk};
ghost use Rattle.etp_table.specs.Points.{values_of};
ghost use Rattle.etp_print.specs.RefusalTexts.{value_text, values_text, counts_text, sides_text, table_refusal};

use crate::refusal::append_with;
use etp_table::{Point, TableRefusal};
use etp_term::Term;
use etp_text::Text;
use std::alloc::{AllocError, Global};

// Appends the value of a variable, behind a space.
pub(crate) fn append_value(text: &mut Text, variable: u8, value: u8) -> Result<(), AllocError>
    ensures { OnOk result (text.new ≡ text.old ++ value_text variable value) }
{
    text.append(b" ")?;
    text.append_term(&Term::Var(variable))?;
    text.append(b"=")?;
    text.append_number(u64::from(value))
}

// Appends the values of the point's variables, each behind a space.
pub(crate) fn append_point(text: &mut Text, point: &Point) -> Result<(), AllocError>
    ensures { OnOk result (text.new ≡ text.old ++ values_text 0 (values_of point.now)) }
{
    for (variable, value) in point.values.iter().enumerate() {
        if variable < usize::from(point.variables) {
            append_value(text, variable as u8, *value)?;
        }
    }
    Ok(())
}

// Appends the size and how many variables there are.
fn append_counts(text: &mut Text, size: u8, variables: u8) -> Result<(), AllocError>
    ensures { OnOk result (text.new ≡ text.old ++ counts_text size variables) }
{
    append_with(text, b" size ", u32::from(size))?;
    append_with(text, b" variables ", u32::from(variables))
}

// Appends the values of both sides.
pub(crate) fn append_sides(text: &mut Text, left: u8, right: u8) -> Result<(), AllocError>
    ensures { OnOk result (text.new ≡ text.old ++ sides_text left right) }
{
    append_with(text, b" left ", u32::from(left))?;
    append_with(text, b" right ", u32::from(right))
}

// Appends why a table is refused.
pub(crate) fn append_table_refusal(
    text: &mut Text,
    refusal: &TableRefusal,
) -> Result<(), AllocError>
    ensures { OnOk result (text.new ≡ text.old ++ table_refusal refusal.now) }
{
    match refusal {
        TableRefusal::Entry { row, column, value } => {
            append_with(text, b"entry row ", u32::from(*row))?;
            append_with(text, b" column ", u32::from(*column))?;
            append_with(text, b" value ", *value)
        }
        TableRefusal::TooManyAssignments {
            law,
            size,
            variables,
        } => {
            append_with(text, b"too many assignments law ", *law)?;
            append_counts(text, *size, *variables)
        }
        TableRefusal::HoldsFails {
            law,
            point,
            left,
            right,
        } => {
            append_with(text, b"holds fails law ", *law)?;
            append_point(text, point)?;
            append_sides(text, *left, *right)
        }
        TableRefusal::FailsHolds { law, looked_at } => {
            append_with(text, b"fails holds law ", *law)?;
            text.append(b" looked at ")?;
            text.append_number(*looked_at)
        }
        TableRefusal::NoMemory => Ok(()),
    }
}

/// Why a table is refused.
pub fn table_text(alloc: Global, refusal: &TableRefusal) -> Result<Text, AllocError>
    ensures { IfOk result (λ text. text ≡ table_refusal refusal.now) }
{
    let mut text = Text::empty(alloc);
    append_table_refusal(&mut text, refusal)?;
    Ok(text)
}
