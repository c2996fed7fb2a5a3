ghost use Rattle.std.specs.Prelude.{◌≡◌, ◌∷◌, ◌≤◌, ◌<◌, ◌+◌, ◌-◌, ◌^◌, ◌⊎◌, min, take, drop, length, Some, None, Ok, OnOk, OnErr, MatchOption, Contains, [], ℕ, List, nat_eq, if◌then◌else◌};
ghost use Rattle.std.specs.Cmp.Lexicographic.{pointwise};
ghost use Rattle.etp_io.specs.Causes.{Rose};
ghost use Rattle.etp_io.specs.Scripts.{MovesUnless};
ghost use Rattle.etp_io.specs.Kept.{kept_in, kept_or_empty};

use super::memory::{copy_some, is_listed};
use super::{Failed, Shelf};
use std::alloc::{AllocError, Global};

/// The most bytes of a name.
const NAME: usize = 64;

/// A name and its bytes. The newest entry of a name stands before the older ones.
#[derive(Drop)]
struct Entry {
    name: Vec<u8>,
    bytes: Vec<u8>,
}

// Puts an entry before the others.
fn put_first(entries: &mut Vec<Entry>, name: Vec<u8>, bytes: Vec<u8>) -> Result<(), AllocError>
    ensures ok { OnOk result (entries.new.items ≡ record { name = name; bytes = bytes } ∷ entries.old.items) }
    ensures err { OnErr result (entries.new.items ≡ entries.old.items) }
{
    match entries.insert(0, Entry { name, bytes }) {
        Ok(()) => Ok(()),
        Err(_) => Err(AllocError),
    }
}

// The bytes of the name, where it has an entry.
fn bytes_of<'a>(entries: &'a [Entry], name: &[u8]) -> Option<&'a [u8]>
    ensures { MatchOption result (kept_in entries.now name.now ≡ None)
        (λ bytes. kept_in entries.now name.now ≡ Some bytes.now) }
{
    for entry in entries {
        if entry.name.as_slice() == name {
            return Some(entry.bytes.as_slice());
        }
    }
    None
}

// Copies as many bytes from the place on as the piece and both sides allow, and says how many.
fn copy_at(from: &[u8], at: u64, into: &mut [u8], piece: usize) -> usize
    ensures count { result ≡ min (length from.now - at) (min (length into.old) piece) }
    ensures bytes { take result (drop at from.now) ≡ take result into.new }
{
    if at >= from.len() as u64 {
        return 0;
    }
    copy_some(&from[at as usize..], into, piece)
}

// The name, and null bytes after it.
fn padded(name: &[u8]) -> [u8; NAME]
    requires { length name.now ≤ 64 }
    ensures { take (length name.now) result ≡ name.now }
{
    let mut bytes = [0; NAME];
    bytes[..name.len()].copy_from_slice(name);
    bytes
}

/// A shelf in memory, whose calls with a listed number fail.
#[derive(Drop)]
pub struct MemoryShelf {
    entries: Vec<Entry>,
    piece: usize,
    failing: Vec<u32>,
    calls: u64,
    faults: u64,
    given: u64,
    failed: [u8; NAME],
    failed_length: usize,
    ghost some: { 0 < piece },
    ghost within: { failed_length ≤ 64 },
}

impl MemoryShelf {
    /// A shelf without names. Each call moves at most `piece` bytes; `failing` lists the calls,
    /// counted from 1, that fail. It takes no memory.
    pub fn of(alloc: Global, piece: usize, failing: Vec<u32>) -> MemoryShelf
        requires { 0 < piece }
        ensures start { (result.entries.items ≡ []) × (result.calls ≡ 0) }
        ensures script { (result.piece ≡ piece) × (result.failing.items ≡ failing.items) }
        ensures counts { (result.faults ≡ 0) × (result.given ≡ 0) × (result.failed_length ≡ 0) }
    {
        MemoryShelf {
            entries: Vec::new(alloc),
            piece,
            failing,
            calls: 0,
            faults: 0,
            given: 0,
            failed: [0; NAME],
            failed_length: 0,
        }
    }

    /// The name has these bytes from now on, in place of earlier ones.
    pub fn put(&mut self, name: Vec<u8>, bytes: Vec<u8>) -> Result<(), AllocError>
        ensures ok { OnOk result ((q : List ℕ)
            → kept_in self.new.entries.items q
            ≡ (if pointwise nat_eq name.items q then Some bytes.items
            else kept_in self.old.entries.items q)) }
        ensures err { OnErr result (self.new.entries.items ≡ self.old.entries.items) }
        ensures same { (self.new.piece ≡ self.old.piece)
            × (self.new.failing.items ≡ self.old.failing.items)
            × (self.new.calls ≡ self.old.calls) }
        ensures counts { (self.new.faults ≡ self.old.faults) × (self.new.given ≡ self.old.given)
            × (self.new.failed_length ≡ self.old.failed_length)
            × (self.new.failed ≡ self.old.failed) }
    {
        put_first(&mut self.entries, name, bytes)
    }

    // Counts a fault of the name.
    fn fail(&mut self, name: &[u8]) -> Failed
        requires { length name.now ≤ 64 }
        ensures same { (self.new.entries ≡ self.old.entries) × (self.new.piece ≡ self.old.piece)
            × (self.new.failing ≡ self.old.failing)
            × (self.new.calls ≡ self.old.calls) × (self.new.given ≡ self.old.given) }
        ensures rose { Rose self.old.faults self.new.faults }
        ensures later { self.old.faults ≤ self.new.faults }
        ensures name { take self.new.failed_length self.new.failed ≡ name.now }
    {
        self.faults = self.faults.saturating_add(1);
        self.failed_length = name.len();
        self.failed = padded(name);
        Failed
    }
}

impl Shelf for MemoryShelf {
    ghost keeps = { λ s. Some (λ name. kept_in s.entries.items name) };

    ghost faults = { λ s. s.faults };

    ghost given = { λ s. s.given };

    ghost failed_name = { λ s. take s.failed_length s.failed };

    ghost gives = { λ s name at n r t. MovesUnless
        (Contains s.failing.items t.calls ⊎ (kept_in s.entries.items name ≡ None))
        (min (length (kept_or_empty s.entries.items name) - at) (min n s.piece)) r
        × (t.calls ≡ min (s.calls + 1) (2 ^ 64 - 1)) × (t.piece ≡ s.piece) × (t.failing.items ≡ s.failing.items) };

    fn read_at(&mut self, name: &[u8], at: u64, buf: &mut [u8]) -> Result<usize, Failed> {
        self.calls = self.calls.saturating_add(1);
        if is_listed(&self.failing, self.calls) {
            return Err(self.fail(name));
        }
        match bytes_of(&self.entries, name) {
            None => Err(self.fail(name)),
            Some(bytes) => {
                let count = copy_at(bytes, at, buf, self.piece);
                self.given = self.given.saturating_add(count as u64);
                Ok(count)
            }
        }
    }
}

/// A shelf in memory that never fails: a name without an entry has the empty text.
#[derive(Drop)]
pub struct SureShelf {
    entries: Vec<Entry>,
    given: u64,
}

impl SureShelf {
    /// A shelf whose names all have the empty text. It takes no memory.
    pub fn of(alloc: Global) -> SureShelf
        ensures { (result.entries.items ≡ []) × (result.given ≡ 0) }
    {
        SureShelf {
            entries: Vec::new(alloc),
            given: 0,
        }
    }

    /// The name has these bytes from now on, in place of earlier ones.
    pub fn put(&mut self, name: Vec<u8>, bytes: Vec<u8>) -> Result<(), AllocError>
        ensures ok { OnOk result ((q : List ℕ)
            → kept_or_empty self.new.entries.items q
            ≡ (if pointwise nat_eq name.items q then bytes.items
            else kept_or_empty self.old.entries.items q)) }
        ensures err { OnErr result (self.new.entries.items ≡ self.old.entries.items) }
        ensures same { self.new.given ≡ self.old.given }
    {
        put_first(&mut self.entries, name, bytes)
    }
}

impl Shelf for SureShelf {
    ghost keeps = { λ s. Some (λ name. Some (kept_or_empty s.entries.items name)) };

    ghost faults = { λ _. 0 };

    ghost given = { λ s. s.given };

    ghost failed_name = { λ _. [] };

    ghost gives = { λ s name at n r _. r ≡ Ok (min (length (kept_or_empty s.entries.items name) - at) n) };

    fn read_at(&mut self, name: &[u8], at: u64, buf: &mut [u8]) -> Result<usize, Failed> {
        match bytes_of(&self.entries, name) {
            None => Ok(0),
            Some(bytes) => {
                let count = copy_at(bytes, at, buf, buf.len());
                self.given = self.given.saturating_add(count as u64);
                Ok(count)
            }
        }
    }
}
