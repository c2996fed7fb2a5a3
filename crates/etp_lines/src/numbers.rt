// Numbers in the lines of bodies.
ghost use Rattle.std.specs.Prelude.{◌≡◌, ◌≤◌, length, IfOk};
ghost use Rattle.etp_words.specs.Words.{words_of};
ghost use Rattle.etp_lines.specs.Claims.{numbers_said};

use etp_bits::Numbers;
use etp_term::NoMemory;
use etp_words::{next_word, number_word};
use std::alloc::Global;

/// The numbers that the words are; None where a word is none.
pub(crate) fn read_numbers(alloc: Global, text: &[u8]) -> Result<Option<Numbers>, NoMemory>
    requires { length text.now ≤ 4096 }
    ensures { IfOk result (λ o. o ≡ numbers_said (words_of text.now)) }
{
    let mut numbers = Numbers::empty(alloc);
    let mut rest = text;
    while let Some((word, behind)) = next_word(rest) {
        let Some(number) = number_word(word) else {
            return Ok(None);
        };
        numbers.push(number)?;
        rest = behind;
    }
    Ok(Some(numbers))
}
