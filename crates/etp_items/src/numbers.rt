// Numbers in the lines of bodies.
ghost use Rattle.std.specs.Prelude.{◌≡◌, ◌≤◌, ◌++◌, ◌∷◌, [], OnOk};
ghost use Rattle.etp_items.specs.Written.{written_numbers, spaced_behind, written_by, cut};

use etp_term::NoMemory;
use etp_text::Text;

/// Appends a line of a word and numbers.
pub(crate) fn append_numbers(text: &mut Text, word: &[u8], numbers: &[u32]) -> Result<(), NoMemory>
    ensures { OnOk result (text.new ≡ text.old ++ written_numbers word.now numbers.now ++ 10 ∷ []) }
{
    text.append(word)?;
    append_spaced(text, numbers)?;
    text.append(b"\n")
}

/// Appends each number behind a space.
pub fn append_spaced(text: &mut Text, numbers: &[u32]) -> Result<(), NoMemory>
    ensures { OnOk result (text.new ≡ text.old ++ spaced_behind numbers.now) }
{
    for number in numbers {
        text.append(b" ")?;
        text.append_number(u64::from(*number))?;
    }
    Ok(())
}

/// Appends lines of a word and `size` numbers each, the last with the rest.
pub(crate) fn append_pieces(
    text: &mut Text,
    word: &[u8],
    size: usize,
    numbers: &[u32],
) -> Result<(), NoMemory>
    requires { 1 ≤ size }
    ensures { OnOk result (text.new ≡ text.old
        ++ written_by (written_numbers word.now) (cut size numbers.now)) }
{
    let mut rest = numbers;
    while !rest.is_empty() {
        let (piece, behind) = rest.split_at(rest.len().min(size));
        append_numbers(text, word, piece)?;
        rest = behind;
    }
    Ok(())
}
