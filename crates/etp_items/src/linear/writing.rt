// The text of a linear magma.
ghost use Rattle.std.specs.Prelude.{◌≡◌, ◌++◌, ◌∷◌, codes, OnOk};
ghost use Rattle.std.specs.Fmt.{signed_decimal};
ghost use Rattle.etp_items.specs.Bodies.{linear, linear_in};
ghost use Rattle.etp_items.specs.Written.{spaced, ring_words, model_text};

use crate::body::LinearBody;
use etp_linear::Ring;
use etp_term::NoMemory;
use etp_text::Text;

/// Appends the line of a linear magma.
pub(crate) fn append_linear(text: &mut Text, body: &LinearBody) -> Result<(), NoMemory>
    ensures { OnOk result (text.new ≡ text.old ++ model_text (linear (linear_in body.now))) }
{
    append_ring(text, body.ring)?;
    append_integer(text, body.a)?;
    append_integer(text, body.b)?;
    append_integer(text, body.c)?;
    text.append(b"\n")
}

/// Appends the words before the coefficients.
fn append_ring(text: &mut Text, ring: Ring) -> Result<(), NoMemory>
    ensures { OnOk result (text.new ≡ text.old ++ spaced (codes "linear" ∷ ring_words ring)) }
{
    match ring {
        Ring::Integers => text.append(b"linear int"),
        Ring::Modulo(modulus) => {
            text.append(b"linear mod ")?;
            text.append_number(u64::from(modulus))
        }
    }
}

/// Appends a number behind a space.
fn append_integer(text: &mut Text, number: i64) -> Result<(), NoMemory>
    ensures { OnOk result (text.new ≡ text.old ++ 32 ∷ signed_decimal number) }
{
    text.append(b" ")?;
    text.append_integer(i128::from(number))
}
