// The text of a table.
ghost use Rattle.std.specs.Prelude.{◌≡◌, ◌≤◌, ◌++◌, OnOk};
ghost use Rattle.etp_items.specs.Bodies.{table};
ghost use Rattle.etp_items.specs.Written.{model_text};

use crate::numbers::{append_numbers, append_pieces};
use etp_term::NoMemory;
use etp_text::Text;

/// Appends the lines of a table of this size with these entries.
pub(crate) fn append_table(text: &mut Text, size: u8, entries: &[u32]) -> Result<(), NoMemory>
    requires { 1 ≤ size }
    ensures { OnOk result (text.new ≡ text.old ++ model_text (table size entries.now)) }
{
    append_numbers(text, b"table", &[u32::from(size)])?;
    append_pieces(text, b"row", usize::from(size), entries)
}
