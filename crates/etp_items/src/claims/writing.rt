// The text of claims.
ghost use Rattle.std.specs.Prelude.{◌≡◌, ◌++◌, OnOk};
ghost use Rattle.etp_items.specs.Bodies.{claims_of};
ghost use Rattle.etp_items.specs.Written.{written_by, written_claim_line, claim_lines};

use crate::body::Claims;
use crate::numbers::append_pieces;
use etp_term::NoMemory;
use etp_text::Text;

/// Appends the lines of claims, of 100 numbers each, the last of each kind with the rest.
pub(crate) fn append_claims(text: &mut Text, claims: &Claims) -> Result<(), NoMemory>
    ensures { OnOk result (text.new ≡ text.old
        ++ written_by written_claim_line (claim_lines (claims_of claims.now))) }
{
    append_pieces(text, b"holds", 100, claims.holds.as_slice())?;
    append_pieces(text, b"fails", 100, claims.fails.as_slice())
}
