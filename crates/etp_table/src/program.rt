ghost use Rattle.std.specs.Prelude.{◌≡◌, ◌≤◌, ◌<◌, ◌+◌, length};
ghost use Rattle.etp_theory.specs.Trees.{bound, ops};
ghost use Rattle.etp_term.specs.Terms.{tree_of};
ghost use Rattle.etp_table.specs.Programs.{Extends, HasValue, IsInOrder, IsLast, IsWritten, register_of};

use crate::instructions::{Instruction, Instructions};
use etp_term::Term;

/// The first register with a result on which the last variable has no influence; before it stand
/// the variables but the last one.
pub(crate) const KEPT: u8 = 7;
/// The register of the last variable.
pub(crate) const LAST: u8 = 12;
/// The first register with another result.
pub(crate) const LOOPED: u8 = 13;

/// The operations of terms as instructions on registers, those apart on which the last variable has
/// no influence.
#[derive(Drop)]
pub(crate) struct Program {
    pub(crate) last: u8,
    pub(crate) kept: Instructions,
    pub(crate) looped: Instructions,
}

impl Program {
    /// Appends the operations of a term. The answer is the register of its value.
    pub(crate) fn compile(&mut self, term: &Term) -> u8
        requires variables { bound (tree_of term.now) ≤ self.old.last + 1 }
        requires few { self.old.last ≤ 6 }
        requires room { length self.old.kept + length self.old.looped + ops (tree_of term.now) ≤ 5 }
        requires order { IsInOrder self.old.kept self.old.looped }
        ensures last { self.new.last ≡ self.old.last }
        ensures kept { Extends self.old.kept self.new.kept }
        ensures looped { Extends self.old.looped self.new.looped }
        ensures count { length self.new.kept + length self.new.looped
            ≡ length self.old.kept + length self.old.looped + ops (tree_of term.now) }
        ensures order { IsInOrder self.new.kept self.new.looped }
        ensures value { HasValue self.new.last self.new.kept self.new.looped result (tree_of term.now) }
    {
        match term {
            Term::Var(v) => self.register_of(*v),
            Term::Op(l, r) => {
                let left = self.compile(l.get());
                let right = self.compile(r.get());
                self.emit(Instruction { left, right })
            }
        }
    }

    // The register of a variable.
    fn register_of(&self, variable: u8) -> u8
        ensures { result ≡ register_of self.now.last variable }
    {
        if variable == self.last {
            LAST
        } else {
            variable
        }
    }

    // Appends an instruction to the list in which it belongs.
    fn emit(&mut self, instruction: Instruction) -> u8
        requires order { IsInOrder self.old.kept self.old.looped }
        requires room { length self.old.kept + length self.old.looped < 5 }
        requires left { IsWritten self.old.kept self.old.looped instruction.left }
        requires right { IsWritten self.old.kept self.old.looped instruction.right }
        ensures last { self.new.last ≡ self.old.last }
        ensures place { IsLast self.old.kept self.old.looped self.new.kept self.new.looped instruction result }
        ensures order { IsInOrder self.new.kept self.new.looped }
    {
        if instruction.left < LAST && instruction.right < LAST {
            self.kept.push(instruction);
            KEPT + self.kept.len() - 1
        } else {
            self.looped.push(instruction);
            LOOPED + self.looped.len() - 1
        }
    }
}
