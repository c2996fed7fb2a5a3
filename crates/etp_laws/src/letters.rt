ghost use Rattle.std.specs.Prelude.{◌≡◌, ◌<◌, ◌≤◌, ◌+◌, ◌++◌, ◌∷◌, [], ◌==◌, length, position};
ghost use Rattle.etp_laws.specs.Occurrences;

use std::marker::Model;

/// At most eight variables in a row, without memory.
#[derive(Drop)]
pub struct Letters {
    letters: [u8; 8],
    len: usize,
}

impl Model for Letters {
    ghost use Rattle.std.specs.Prelude.{ℕ, List, take, ◌≤◌};

    ghost Value = { List ℕ };

    ghost view = { λ s. take s.len s.letters };

    ghost invariant = { λ s. s.len ≤ 8 };
}

impl Letters {
    pub fn new() -> Letters
        ensures { result ≡ [] }
    {
        Letters {
            letters: [0; 8],
            len: 0,
        }
    }

    pub fn as_slice(&self) -> &[u8]
        ensures value { result.now ≡ self.now }
        ensures short { length self.now ≤ 8 }
    {
        &self.letters[..self.len]
    }

    pub fn push(&mut self, v: u8)
        requires { length self.old < 8 }
        ensures { self.new ≡ self.old ++ v ∷ [] }
    {
        self.letters[self.len] = v;
        self.len += 1;
    }

    /// The place of `v`, which is added where it is new.
    fn note(&mut self, v: u8) -> usize
        requires { length self.old < 8 }
        ensures place { result ≡ Occurrences.place self.old v }
        ensures within { result ≤ length self.old }
        ensures after { self.new ≡ Occurrences.seen_after self.old v }
    {
        let place = place_of(&self.letters[..self.len], v);
        if place == self.len {
            self.push(v);
            return place;
        }
        place
    }
}

fn position_of(seen: &[u8], v: u8) -> Option<usize>
    ensures { result ≡ position (λ x. x == v) seen.now }
{
    seen.iter().position(|x| *x == v)
}

/// The place of a variable among those seen, or their number where it is new.
fn place_of(seen: &[u8], v: u8) -> usize
    ensures place { result ≡ Occurrences.place seen.now v }
    ensures within { result ≤ length seen.now }
{
    position_of(seen, v).unwrap_or(seen.len())
}

/// Appends the word, numbered by first occurrence after the variables seen.
fn append_by_occurrence(word: &[u8], seen: &mut Letters, numbers: &mut Letters)
    requires seen_short { length seen.old + length word.now ≤ 8 }
    requires short { length numbers.old + length word.now ≤ 8 }
    ensures numbers { numbers.new ≡ numbers.old
        ++ Occurrences.by_occurrence_after seen.old word.now }
    ensures after { seen.new ≡ Occurrences.seen_all seen.old word.now }
    ensures seen_len { length seen.new ≤ length seen.old + length word.now }
    ensures len { length numbers.new ≡ length numbers.old + length word.now }
{
    for v in word {
        let place = seen.note(*v);
        numbers.push(place as u8);
    }
}

/// The word of two sides, numbered by first occurrence.
pub fn by_occurrence(left: &[u8], right: &[u8]) -> Letters
    requires { length left.now + length right.now ≤ 8 }
    ensures value { result ≡ Occurrences.by_occurrence (left.now ++ right.now) }
    ensures len { length result ≡ length left.now + length right.now }
    ensures grows { Occurrences.Grows 0 result }
{
    let mut seen = Letters::new();
    let mut numbers = Letters::new();
    append_by_occurrence(left, &mut seen, &mut numbers);
    append_by_occurrence(right, &mut seen, &mut numbers);
    numbers
}
