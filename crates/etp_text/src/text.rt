ghost use Rattle.std.specs.Prelude.{◌≡◌, ◌<◌, ◌++◌, ◌∷◌, [], OnOk, OnErr, length, slice_get, decimal};
ghost use Rattle.std.specs.Fmt.{signed_decimal};
ghost use Rattle.std.specs.Option.{option_copied};

use itoa::Buffer;
use std::alloc::{AllocError, Global};
use std::marker::Model;

/// A list of bytes that grows at its end: a text that is being written.
#[derive(Drop)]
pub struct Text {
    bytes: Vec<u8>,
}

impl Model for Text {
    ghost use Rattle.std.specs.Prelude.{ℕ, List, length, ◌<◌, ◌^◌};

    ghost Value = { List ℕ };

    ghost view = { λ t. t.bytes.items };

    ghost invariant = { λ t. length t.bytes.items < 2 ^ 32 };
}

impl Text {
    /// The text without bytes. It takes no memory; the allocator serves later growth.
    pub fn empty(alloc: Global) -> Text
        ensures { result ≡ [] }
    {
        Text {
            bytes: Vec::new(alloc),
        }
    }

    /// How many bytes the text has.
    pub fn len(&self) -> u32
        ensures { result ≡ length self.now }
    {
        self.bytes.len() as u32
    }

    /// The byte at a place counted from 0; None where the place isn't below the length.
    pub fn get(&self, at: u32) -> Option<&u8>
        ensures { option_copied result ≡ slice_get self.now at }
    {
        self.bytes.get(at as usize)
    }

    /// Appends a byte.
    pub fn push(&mut self, byte: u8) -> Result<(), AllocError>
        requires { length self.old < 4294967295 }
        ensures ok { OnOk result (self.new ≡ self.old ++ byte ∷ []) }
        ensures err { OnErr result (self.new ≡ self.old) }
    {
        self.bytes.push(byte)?;
        Ok(())
    }

    /// The whole text.
    pub fn as_slice(&self) -> &[u8]
        ensures { result.now ≡ self.now }
    {
        self.bytes.as_slice()
    }

    /// Takes all bytes out and keeps their room.
    pub fn clear(&mut self)
        ensures { self.new ≡ [] }
    {
        self.bytes.clear();
    }

    /// Appends bytes. A text of more than 4294967295 bytes is want of memory too.
    pub fn append(&mut self, bytes: &[u8]) -> Result<(), AllocError>
        ensures ok { OnOk result (self.new ≡ self.old ++ bytes.now) }
        ensures err { OnErr result (self.new ≡ self.old) }
    {
        if bytes.len() > u32::MAX as usize - self.bytes.len() {
            return Err(AllocError);
        }
        self.bytes.extend_from_slice(bytes)
    }

    /// Appends the digits of a number.
    pub fn append_number(&mut self, number: u64) -> Result<(), AllocError>
        ensures ok { OnOk result (self.new ≡ self.old ++ decimal number) }
        ensures err { OnErr result (self.new ≡ self.old) }
    {
        let mut buffer = Buffer::new();
        self.append(buffer.format(number).as_bytes())
    }

    /// Appends the digits of a number, with `-` before them where it is negative.
    pub fn append_integer(&mut self, number: i128) -> Result<(), AllocError>
        ensures ok { OnOk result (self.new ≡ self.old ++ signed_decimal number) }
        ensures err { OnErr result (self.new ≡ self.old) }
    {
        let mut buffer = Buffer::new();
        self.append(buffer.format(number).as_bytes())
    }
}
