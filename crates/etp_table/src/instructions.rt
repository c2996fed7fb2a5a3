ghost use Rattle.std.specs.Prelude.{◌≡◌, ◌≤◌, ◌<◌, ◌++◌, ◌∷◌, [], length};

use std::marker::Model;

/// The operation of the values of two registers.
#[derive(Clone, Copy)]
pub(crate) struct Instruction {
    pub(crate) left: u8,
    pub(crate) right: u8,
}

/// At most five instructions.
#[derive(Drop)]
pub(crate) struct Instructions {
    list: [Instruction; 5],
    count: u8,
}

impl Model for Instructions {
    ghost use Rattle.std.specs.Prelude.{List, take, ◌≤◌};
    ghost use Rattle.std.specs.Coded.{codes};
    ghost use Rattle.etp_table.specs.declared.instructions.Instruction.{Instruction};

    ghost Value = { List Instruction };

    ghost coded = { Prim.hlevel codes };

    ghost view = { λ s. take s.count s.list };

    ghost invariant = { λ s. s.count ≤ 5 };
}

impl Instructions {
    /// No instructions.
    pub(crate) fn empty() -> Instructions
        ensures { result ≡ [] }
    {
        Instructions {
            list: [Instruction { left: 0, right: 0 }; 5],
            count: 0,
        }
    }

    /// How many there are.
    pub(crate) fn len(&self) -> u8
        ensures { result ≡ length self.now }
    {
        self.as_slice().len() as u8
    }

    /// Appends one.
    pub(crate) fn push(&mut self, instruction: Instruction)
        requires { length self.old < 5 }
        ensures { self.new ≡ self.old ++ instruction ∷ [] }
    {
        self.list[self.count as usize] = instruction;
        self.count += 1;
    }

    /// All of them.
    pub(crate) fn as_slice(&self) -> &[Instruction]
        ensures value { result.now ≡ self.now }
        ensures few { length self.now ≤ 5 }
    {
        &self.list[..self.count as usize]
    }
}
