// The text of a matrix-linear magma.
ghost use Rattle.std.specs.Prelude.{◌≡◌, ◌≤◌, ◌++◌, OnOk};
ghost use Rattle.etp_items.specs.Bodies.{matrix, matrix_in};
ghost use Rattle.etp_items.specs.Written.{model_text};

use crate::body::MatrixBody;
use crate::numbers::{append_numbers, append_pieces};
use etp_term::NoMemory;
use etp_text::Text;

/// Appends the lines of a matrix-linear magma.
pub(crate) fn append_matrix(text: &mut Text, body: &MatrixBody) -> Result<(), NoMemory>
    requires { 1 ≤ body.now.size }
    ensures { OnOk result (text.new ≡ text.old ++ model_text (matrix (matrix_in body.now))) }
{
    let size = usize::from(body.size);
    append_numbers(text, b"matrix", &[body.modulus, u32::from(body.size)])?;
    append_pieces(text, b"a", size, body.a.as_slice())?;
    append_pieces(text, b"b", size, body.b.as_slice())?;
    append_numbers(text, b"c", body.c.as_slice())
}
