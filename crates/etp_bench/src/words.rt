// The words of the command line.
ghost use Rattle.std.specs.Prelude.{◌≡◌, ◌*◌};

use std::{env, io};

/// How many facts are drawn.
#[derive(Clone, Copy)]
pub struct Sizes {
    pub implications: u16,
    pub refutations: u16,
    /// The length of each of a refutation's two lists.
    pub laws: u16,
}

impl Sizes {
    /// How many laws are drawn for the lists of all refutations.
    pub fn drawn_laws(self) -> u64
        ensures { result ≡ 2 * self.refutations * self.laws }
    {
        2 * self.refutations as u64 * self.laws as u64
    }
}

/// The first three words, or 200, 3 and 200 for those that are missing. A word that is no number
/// below 65536 is an error.
pub fn read_sizes(rt: &HostRuntime) -> io::Result<Sizes> {
    let mut words = env::args(rt)?;
    words.next();
    let mut sizes: [u16; 3] = [200, 3, 200];
    for size in sizes.iter_mut() {
        if let Some(word) = words.next() {
            *size = number(word.as_str())?;
        }
    }
    Ok(Sizes {
        implications: sizes[0],
        refutations: sizes[1],
        laws: sizes[2],
    })
}

// The number that a word spells.
fn number(word: &str) -> io::Result<u16> {
    word.parse::<u16>()
        .map_err(|_| io::Error::from(io::ErrorKind::InvalidInput))
}
