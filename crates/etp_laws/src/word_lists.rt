ghost use Rattle.std.specs.Prelude.{◌≡◌, ◌<◌, ◌≤◌, ◌+◌, ◌++◌, ◌∷◌, IfOk, OnOk, map, length};
ghost use Rattle.etp_laws.specs.Enumeration.{used_after, words, is_kept};

use crate::letters::by_occurrence;
use sqlite_items::Items;
use std::alloc::{AllocError, Global};

/// Appends each of `words` with `first` before it.
fn append_longer(
    alloc: Global,
    longer: &mut Items<Items<u8>>,
    first: u8,
    words: &[Items<u8>],
) -> Result<(), AllocError>
    ensures { OnOk result (longer.new ≡ longer.old ++ map (λ w. first ∷ w) words.now) }
{
    for word in words {
        let mut long = Items::new(alloc);
        long.push(first)?;
        long.append(Items::from_slice(alloc, word.as_slice())?)?;
        longer.push(long)?;
    }
    Ok(())
}

/// How many variables are used after `v`, where `used` were before.
pub fn used_after(used: u8, v: u8) -> u8
    requires { used < 255 }
    ensures value { result ≡ used_after used v }
    ensures more { result ≤ used + 1 }
{
    if v == used { used + 1 } else { used }
}

/// The words of `n` variables that go on after `used` variables, in order.
pub fn words(alloc: Global, n: usize, used: u8) -> Result<Items<Items<u8>>, AllocError>
    requires { used + n < 256 }
    ensures { IfOk result (λ ws. ws ≡ words n used) }
{
    let mut longer = Items::new(alloc);
    if n == 0 {
        longer.push(Items::new(alloc))?;
        return Ok(longer);
    }
    for v in 0..used + 1 {
        let rest = words(alloc, n - 1, used_after(used, v))?;
        append_longer(alloc, &mut longer, v, rest.as_slice())?;
    }
    Ok(longer)
}

/// Of a word of a law whose sides have equal shapes of `middle` leaves: whether the law is listed,
/// which is where its sides differ, or it is the first law, and its exchanged form isn't earlier.
pub fn is_kept(word: &[u8], middle: usize) -> bool
    requires inside { middle ≤ length word.now }
    requires short { length word.now ≤ 8 }
    ensures { result ≡ is_kept middle word.now }
{
    let exchanged = by_occurrence(&word[middle..], &word[..middle]);
    let is_least = !word.cmp(&exchanged.as_slice()).is_gt();
    is_least && (word[..middle] != word[middle..] || middle == 1)
}
