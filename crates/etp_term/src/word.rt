ghost use Rattle.std.specs.Prelude.{◌≡◌, ◌<◌, ◌++◌, ◌∷◌, [], OnOk, OnErr, length, slice_get};
ghost use Rattle.std.specs.Option.{option_copied};

use std::alloc::{AllocError, Global};
use std::marker::Model;

/// A list of variables, as the word of a law: its variables from left to right through both sides.
#[derive(Drop)]
pub struct Word {
    variables: Vec<u8>,
}

impl Model for Word {
    ghost use Rattle.std.specs.Prelude.{ℕ, List, length, ◌<◌, ◌^◌};

    ghost Value = { List ℕ };

    ghost view = { λ w. w.variables.items };

    ghost invariant = { λ w. length w.variables.items < 2 ^ 32 };
}

impl Word {
    /// The list without variables. It takes no memory; the allocator serves later growth.
    pub fn empty(alloc: Global) -> Word
        ensures { result ≡ [] }
    {
        Word {
            variables: Vec::new(alloc),
        }
    }

    /// How many variables the list has.
    pub fn len(&self) -> u32
        ensures { result ≡ length self.now }
    {
        self.variables.len() as u32
    }

    /// The variable at a place counted from 0; None where the place isn't below the length.
    pub fn get(&self, at: u32) -> Option<&u8>
        ensures { option_copied result ≡ slice_get self.now at }
    {
        self.variables.get(at as usize)
    }

    /// Appends a variable.
    pub fn push(&mut self, variable: u8) -> Result<(), AllocError>
        requires { length self.old < 4294967295 }
        ensures ok { OnOk result (self.new ≡ self.old ++ variable ∷ []) }
        ensures err { OnErr result (self.new ≡ self.old) }
    {
        self.variables.push(variable)?;
        Ok(())
    }

    /// Appends a variable; a full list is want of memory too.
    pub(crate) fn append(&mut self, variable: u8) -> Result<(), AllocError>
        ensures ok { OnOk result (self.new ≡ self.old ++ variable ∷ []) }
        ensures err { OnErr result (self.new ≡ self.old) }
    {
        if self.len() == u32::MAX {
            return Err(AllocError);
        }
        self.push(variable)
    }

    /// The whole list.
    pub fn as_slice(&self) -> &[u8]
        ensures { result.now ≡ self.now }
    {
        self.variables.as_slice()
    }
}
