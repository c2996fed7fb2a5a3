// The texts of refusals of linear magmas.
ghost use Rattle.std.specs.Prelude.{◌≡◌, ◌++◌, IfOk, OnOk, codes};
ghost use Rattle.std.specs.Fmt.{signed_decimal};
ghost use Rattle.etp_print.specs.RefusalTexts.{which_word, coefficient_text, unit_text, failure_text, linear_refusal};

use crate::refusal::append_with;
use crate::table::append_value;
use etp_linear::{LinearFailure, LinearRefusal, Which};
use etp_text::Text;
use std::alloc::{AllocError, Global};

// Appends what is out of range.
fn append_which(text: &mut Text, which: Which) -> Result<(), AllocError>
    ensures { OnOk result (text.new ≡ text.old ++ which_word which) }
{
    match which {
        Which::Modulus => text.append(b"modulus"),
        Which::A => text.append(b"a"),
        Which::B => text.append(b"b"),
        Which::C => text.append(b"c"),
    }
}

// Appends words and a number that may be negative.
fn append_signed(text: &mut Text, words: &[u8], number: i128) -> Result<(), AllocError>
    ensures { OnOk result (text.new ≡ text.old ++ (words.now ++ signed_decimal number)) }
{
    text.append(words)?;
    text.append_integer(number)
}

// Appends what is out of range, and its value.
fn append_coefficient(text: &mut Text, which: Which, value: i128) -> Result<(), AllocError>
    ensures { OnOk result (text.new ≡ text.old ++ coefficient_text which value) }
{
    text.append(b"coefficient ")?;
    append_which(text, which)?;
    append_signed(text, b" value ", value)
}

// Appends the assignment at which all are zero but this variable, which is 1.
fn append_unit(text: &mut Text, variable: Option<u8>) -> Result<(), AllocError>
    ensures { OnOk result (text.new ≡ text.old ++ unit_text variable) }
{
    match variable {
        None => text.append(b" zero"),
        Some(variable) => append_value(text, variable, 1),
    }
}

// Appends the assignment at which a law fails, and the values of both sides.
pub(crate) fn append_failure(text: &mut Text, failure: &LinearFailure) -> Result<(), AllocError>
    ensures { OnOk result (text.new ≡ text.old ++ failure_text failure.now) }
{
    append_unit(text, failure.variable)?;
    append_signed(text, b" left ", failure.left)?;
    append_signed(text, b" right ", failure.right)
}

// Appends why a linear magma is refused.
pub(crate) fn append_linear_refusal(
    text: &mut Text,
    refusal: &LinearRefusal,
) -> Result<(), AllocError>
    ensures { OnOk result (text.new ≡ text.old ++ linear_refusal refusal.now) }
{
    match refusal {
        LinearRefusal::Coefficient { which, value } => {
            append_coefficient(text, *which, i128::from(*value))
        }
        LinearRefusal::HoldsFails { law, failure } => {
            append_with(text, b"holds fails law ", *law)?;
            append_failure(text, failure)
        }
        LinearRefusal::FailsHolds { law } => append_with(text, b"fails holds law ", *law),
    }
}

/// Why a linear magma is refused.
pub fn linear_text(alloc: Global, refusal: &LinearRefusal) -> Result<Text, AllocError>
    ensures { IfOk result (λ text. text ≡ linear_refusal refusal.now) }
{
    let mut text = Text::empty(alloc);
    append_linear_refusal(&mut text, refusal)?;
    Ok(text)
}
