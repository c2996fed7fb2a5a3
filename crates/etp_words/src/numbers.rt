ghost use Rattle.std.specs.Prelude.{◌≡◌};
ghost use Rattle.etp_words.specs.Numbers.{number_said};

/// The number that the word is: one to ten decimal digits with a value below 2^32.
pub fn number_word(word: &[u8]) -> Option<u32>
    ensures { result ≡ number_said word.now }
{
    if word.is_empty() || word.len() > 10 {
        return None;
    }
    let mut value = 0u64;
    for byte in word {
        if !byte.is_ascii_digit() {
            return None;
        }
        value = value * 10 + u64::from(*byte - b'0');
    }
    u32::try_from(value).ok()
}
