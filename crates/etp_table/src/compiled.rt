ghost use Rattle.std.specs.Prelude.{◌≡◌, ◌≤◌, ◌<◌, ◌+◌, ◌^◌, ℕ, length, min, slice_index};
ghost use Rattle.etp_theory.specs.Trees.{bound, law_ops};
ghost use Rattle.etp_theory.specs.Tables.{place_of};
ghost use Rattle.etp_term.specs.Terms.{tree_of};
ghost use Rattle.etp_term.specs.Laws.{equation_of};
ghost use Rattle.etp_table.specs.Tables.{times};
ghost use Rattle.etp_table.specs.Points.{values_of, IsPadded};
ghost use Rattle.etp_table.specs.Verdicts.{variables, assignments, limit, IsVerdict};
ghost use Rattle.etp_table.specs.Programs.{InOrder, Solves};
ghost use Rattle.etp_table.specs.Compiled.{law_of, IsCompiled, AreValues, SameBelow, IsRowAnswer, assignment_at};
ghost use Rattle.etp_table.specs.Digits.{AreDigits};

use crate::instructions::{Instruction, Instructions};
use crate::point::{Point, Verdict};
use crate::program::{KEPT, LAST, LOOPED, Program};
use crate::table::OpTable;
use etp_term::{Law, Term};

const REGISTERS: usize = 18;

type Registers = [u8; REGISTERS];

/// A law with its operations as instructions, and the registers of its sides' values.
#[derive(Drop)]
pub(crate) struct CompiledLaw<'l> {
    law: &'l Law,
    program: Program,
    left: u8,
    right: u8,
}

/// How many variables a law has where they are 0, 1 and so on.
pub(crate) fn variables_of(law: &Law) -> u8
    requires { variables (equation_of law.now) ≤ 7 }
    ensures value { result ≡ variables (equation_of law.now) }
    ensures some { 1 ≤ result }
{
    bound_of(&law.left).max(bound_of(&law.right)) as u8
}

// One above the greatest variable of the term.
fn bound_of(term: &Term) -> u32
    ensures value { result ≡ bound (tree_of term.now) }
    ensures some { 1 ≤ result }
    ensures small { result ≤ 256 }
{
    match term {
        Term::Var(v) => *v as u32 + 1,
        Term::Op(l, r) => bound_of(l.get()).max(bound_of(r.get())),
    }
}

impl<'l> CompiledLaw<'l> {
    /// The law's two sides as instructions.
    pub(crate) fn of(law: &'l Law, count: u8) -> CompiledLaw<'l>
        requires count { count ≡ variables (equation_of law.now) }
        requires some { 1 ≤ count }
        requires few { count ≤ 7 }
        requires small { law_ops (equation_of law.now) ≤ 5 }
        ensures law { law_of result ≡ equation_of law.now }
        ensures compiled { IsCompiled result }
    {
        let mut program = Program {
            last: count - 1,
            kept: Instructions::empty(),
            looped: Instructions::empty(),
        };
        let left = program.compile(&law.left);
        let right = program.compile(&law.right);
        CompiledLaw {
            law,
            program,
            left,
            right,
        }
    }

    /// Looks at so many assignments of K variables in lexicographic order, up to the first that
    /// fails.
    pub(crate) fn walk<const K: usize>(&self, table: &OpTable, looked_at: u64) -> Verdict
        requires compiled { IsCompiled self.now }
        requires variables { variables (law_of self.now) ≡ K }
        requires all { looked_at ≡ min limit (assignments table.now (law_of self.now)) }
        ensures { IsVerdict table.now (law_of self.now) result }
    {
        let size = table.size();
        let mut values = [0u8; K];
        let mut registers = [0; REGISTERS];
        let mut passed = 0;
        while passed < looked_at {
            registers[..K - 1].copy_from_slice(&values[..K - 1]);
            run(
                table,
                self.program.kept.as_slice(),
                KEPT as usize,
                &mut registers,
            );
            let count = (looked_at - passed).min(size as u64) as u8;
            if let Some(value) = self.walk_row(table, &mut registers, count) {
                values[K - 1] = value;
                return Verdict::Fails {
                    point: point_of(&values),
                    left: registers[self.left as usize],
                    right: registers[self.right as usize],
                };
            }
            passed += count as u64;
            if passed < looked_at {
                advance(&mut values[..K - 1], size);
            }
        }
        Verdict::Holds { looked_at }
    }

    // The first of the `count` least values of the last variable at which the sides differ.
    fn walk_row(&self, table: &OpTable, registers: &mut Registers, count: u8) -> Option<u8>
        requires compiled { IsCompiled self.now }
        requires count { count ≤ table.now.size }
        requires values { AreValues table.now registers.old }
        requires solved { Solves (times table.now) 7 self.now.program.kept (λ r. slice_index registers.old r) }
        ensures answer { IsRowAnswer table.now self.now registers.old registers.new count result }
        ensures same { SameBelow 12 registers.old registers.new }
        ensures values { AreValues table.now registers.new }
    {
        let looped = self.program.looped.as_slice();
        for value in 0..count {
            registers[LAST as usize] = value;
            run(table, looped, LOOPED as usize, registers);
            if registers[self.left as usize] != registers[self.right as usize] {
                return Some(value);
            }
        }
        None
    }
}

// Runs instructions: their results go to the registers from `first` on.
fn run(table: &OpTable, instructions: &[Instruction], first: usize, registers: &mut Registers)
    requires order { InOrder first instructions.now }
    requires fits { first + length instructions.now ≤ 18 }
    requires values { AreValues table.now registers.old }
    ensures solved { Solves (times table.now) first instructions.now (λ r. slice_index registers.new r) }
    ensures same { SameBelow first registers.old registers.new }
    ensures values { AreValues table.now registers.new }
{
    for (place, instruction) in instructions.iter().enumerate() {
        let left = registers[instruction.left as usize];
        let right = registers[instruction.right as usize];
        registers[first + place] = table.value(left, right);
    }
}

// The point of an assignment.
fn point_of<const K: usize>(assignment: &[u8; K]) -> Point
    requires { K ≤ 8 }
    ensures variables { result.variables ≡ K }
    ensures values { values_of result ≡ assignment.now }
    ensures padded { IsPadded result }
{
    let mut values = [0; 8];
    values[..K].copy_from_slice(assignment);
    Point {
        values,
        variables: K as u8,
    }
}

// The next digits to base `size`.
fn advance(digits: &mut [u8], size: u8)
    requires digits { AreDigits size digits.old }
    requires more { place_of size digits.old + 1 < size ^ length digits.old }
    ensures digits { AreDigits size digits.new }
    ensures next { place_of size digits.new ≡ place_of size digits.old + 1 }
{
    for at in (0..digits.len()).rev() {
        if digits[at] + 1 < size {
            digits[at] += 1;
            return;
        }
        digits[at] = 0;
    }
}
