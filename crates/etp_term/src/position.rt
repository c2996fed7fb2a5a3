ghost use Rattle.std.specs.Prelude.{◌≡◌, ◌<◌, ◌++◌, ◌∷◌, [], OnOk, OnErr, length, slice_get};
ghost use Rattle.std.specs.Option.{option_copied};

use std::alloc::{AllocError, Global};
use std::marker::Model;

/// One step down in a term: to its left or to its right part.
#[derive(Clone, Copy)]
pub enum Side {
    L,
    R,
}

/// A position in a term: the sides from the root down.
#[derive(Drop)]
pub struct Position {
    sides: Vec<Side>,
}

impl Model for Position {
    ghost use Rattle.std.specs.Prelude.{List, length, ◌<◌, ◌^◌};
    ghost use Rattle.etp_term.specs.declared.position.Side.{Side};

    ghost Value = { List Side };

    ghost view = { λ p. p.sides.items };

    ghost invariant = { λ p. length p.sides.items < 2 ^ 32 };
}

impl Position {
    /// The position of the whole term. It takes no memory; the allocator serves later growth.
    pub fn root(alloc: Global) -> Position
        ensures { result ≡ [] }
    {
        Position {
            sides: Vec::new(alloc),
        }
    }

    /// How many sides lead from the root to the position.
    pub fn len(&self) -> u32
        ensures { result ≡ length self.now }
    {
        self.sides.len() as u32
    }

    /// The side at a place counted from 0 at the root; None where the place isn't below the length.
    pub fn get(&self, at: u32) -> Option<&Side>
        ensures { option_copied result ≡ slice_get self.now at }
    {
        self.sides.get(at as usize)
    }

    /// Goes one side further down.
    pub fn push(&mut self, side: Side) -> Result<(), AllocError>
        requires { length self.old < 4294967295 }
        ensures ok { OnOk result (self.new ≡ self.old ++ side ∷ []) }
        ensures err { OnErr result (self.new ≡ self.old) }
    {
        self.sides.push(side)?;
        Ok(())
    }

    /// All sides, from the root down.
    pub fn as_slice(&self) -> &[Side]
        ensures { result.now ≡ self.now }
    {
        self.sides.as_slice()
    }
}
