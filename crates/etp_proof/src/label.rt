ghost use Rattle.std.specs.Prelude.{◌≡◌, ◌<◌, ◌≤◌, ◌++◌, ◌∷◌, ◌↔◌, [], IsTrue, IfOk, OnOk, OnErr, MatchOption, length, slice_get};
ghost use Rattle.std.specs.Option.{option_copied};
ghost use Rattle.etp_proof.specs.Names.{IsLetterOrDigit, IsNameByte, IsName};

use etp_term::NoMemory;
use std::alloc::Global;
use std::marker::Model;

/// A name of a file: 1 to 64 bytes, each an ASCII letter, a digit, `.`, `_` or `-`, and the first a
/// letter or a digit.
#[derive(Drop)]
pub struct Label {
    bytes: Vec<u8>,
}

impl Model for Label {
    ghost use Rattle.std.specs.Prelude.{ℕ, List};
    ghost use Rattle.etp_proof.specs.Names.{IsName};

    ghost Value = { List ℕ };

    ghost view = { λ l. l.bytes.items };

    ghost invariant = { λ l. IsName l.bytes.items };
}

impl Label {
    /// The name of these bytes; None exactly where they aren't a name.
    pub fn of(alloc: Global, bytes: &[u8]) -> Result<Option<Label>, NoMemory>
        ensures { IfOk result (λ o. MatchOption o (IsName bytes.now → ⊥)
            (λ l. (l ≡ bytes.now) × IsName bytes.now)) }
    {
        if !is_name(bytes) {
            return Ok(None);
        }
        Ok(Some(Label {
            bytes: Vec::from_slice(alloc, bytes)?,
        }))
    }

    /// How many bytes the name has.
    pub fn len(&self) -> u32
        ensures value { result ≡ length self.now }
        ensures name { IsName self.now }
    {
        self.bytes.len() as u32
    }

    /// The byte at a place counted from 0; None where the place isn't below the length.
    pub fn get(&self, at: u32) -> Option<&u8>
        ensures value { option_copied result ≡ slice_get self.now at }
        ensures name { IsName self.now }
    {
        self.bytes.get(at as usize)
    }

    /// All bytes.
    pub fn as_slice(&self) -> &[u8]
        ensures value { result.now ≡ self.now }
        ensures name { IsName self.now }
    {
        self.bytes.as_slice()
    }
}

fn is_letter_or_digit(byte: u8) -> bool
    ensures { IsTrue result ↔ IsLetterOrDigit byte }
{
    byte.is_ascii_alphanumeric()
}

fn is_name_byte(byte: u8) -> bool
    ensures { IsTrue result ↔ IsNameByte byte }
{
    is_letter_or_digit(byte) || byte == b'.' || byte == b'_' || byte == b'-'
}

fn is_name(bytes: &[u8]) -> bool
    ensures { IsTrue result ↔ IsName bytes.now }
{
    if bytes.len() > 64 {
        return false;
    }
    match bytes.first() {
        None => false,
        Some(first) => is_letter_or_digit(*first) && bytes.iter().all(|byte| is_name_byte(*byte)),
    }
}

/// The names of the cited files, in order.
#[derive(Drop)]
pub struct Cites {
    labels: Vec<Label>,
}

impl Model for Cites {
    ghost use Rattle.std.specs.Prelude.{List, length, ◌<◌, ◌^◌};
    ghost use Rattle.etp_proof.specs.declared.label.Label.{Label};

    ghost Value = { List Label };

    ghost view = { λ c. c.labels.items };

    ghost invariant = { λ c. length c.labels.items < 2 ^ 32 };
}

impl Cites {
    /// No names. It takes no memory; the allocator serves later growth.
    pub fn empty(alloc: Global) -> Cites
        ensures { result ≡ [] }
    {
        Cites {
            labels: Vec::new(alloc),
        }
    }

    /// How many names there are.
    pub fn len(&self) -> u32
        ensures { result ≡ length self.now }
    {
        self.labels.len() as u32
    }

    /// The name at a place counted from 0; None where the place isn't below the length.
    pub fn get(&self, at: u32) -> Option<&Label>
        ensures { option_copied result ≡ slice_get self.now at }
    {
        self.labels.get(at as usize)
    }

    /// All names.
    pub fn as_slice(&self) -> &[Label]
        ensures { result.now ≡ self.now }
    {
        self.labels.as_slice()
    }

    /// Appends a name.
    pub fn push(&mut self, label: Label) -> Result<(), NoMemory>
        requires { length self.old < 4294967295 }
        ensures ok { OnOk result (self.new ≡ self.old ++ label ∷ []) }
        ensures err { OnErr result (self.new ≡ self.old) }
    {
        self.labels.push(label)?;
        Ok(())
    }
}
