ghost use Rattle.std.specs.Prelude.{◌≡◌, ◌⊎◌, ◌≤◌, ◌<◌, ◌*◌, ◌^◌, ℕ, IfOk, IfErr, length, slice_index};
ghost use Rattle.etp_theory.specs.Trees.{bound, law_ops};
ghost use Rattle.etp_theory.specs.Magmas.{meaning};
ghost use Rattle.etp_theory.specs.Tables.{assigned};
ghost use Rattle.etp_term.specs.Terms.{tree_of};
ghost use Rattle.etp_table.specs.Tables.{times, IsTable};
ghost use Rattle.etp_table.specs.Points.{values_of};
ghost use Rattle.etp_term.specs.Laws.{equation_of};
ghost use Rattle.etp_laws.specs.Listing.{Listed};
ghost use Rattle.etp_laws.specs.LawLists.{HasVariables};
ghost use Rattle.etp_table.specs.Verdicts.{variables, IsVerdict, Tells};
ghost use Rattle.etp_table.specs.Entries.{IsFirstWrong};

use crate::compiled::{CompiledLaw, variables_of};
use crate::point::{Point, Verdict};
use crate::refusal::TableRefusal;
use etp_term::{Law, Term};
use std::alloc::Global;
use std::marker::Model;

/// How many assignments of a law are looked at.
pub(crate) const LOOKED_AT: u64 = 16777216;

/// A finite magma on 0 to its size less one, by the table of its operation.
#[derive(Drop)]
pub struct OpTable {
    size: u8,
    entries: Vec<u8>,
}

impl Model for OpTable {
    ghost use Rattle.etp_table.specs.Tables.{Table, IsTable};
    ghost use Rattle.etp_table.specs.Coding.{coded_table};

    ghost Value = { Table };

    ghost coded = { coded_table };

    ghost view = { λ t. record { size = t.size; entries = t.entries.items } };

    ghost invariant = { λ t. IsTable (record { size = t.size; entries = t.entries.items }) };
}

impl OpTable {
    /// The table with these entries, row by row.
    pub fn of(alloc: Global, size: u8, entries: &[u32]) -> Result<OpTable, TableRefusal>
        requires some { 1 ≤ size }
        requires square { length entries.now ≡ size * size }
        ensures size { IfOk result (λ table. table.size ≡ size) }
        ensures entries { IfOk result (λ table. table.entries ≡ entries.now) }
        ensures table { IfOk result (λ table. IsTable table) }
        ensures err { IfErr result (λ r. (r ≡ TableRefusal.NoMemory) ⊎ IsFirstWrong size entries.now r) }
    {
        let mut bytes = Vec::with_capacity(alloc, entries.len())?;
        for (place, value) in entries.iter().enumerate() {
            if *value >= size as u32 {
                return Err(TableRefusal::Entry {
                    row: (place / size as usize) as u8,
                    column: (place % size as usize) as u8,
                    value: *value,
                });
            }
            bytes.push(*value as u8)?;
        }
        Ok(OpTable {
            size,
            entries: bytes,
        })
    }

    /// The size: the values are the numbers below it.
    pub fn size(&self) -> u8
        ensures value { result ≡ self.now.size }
        ensures table { IsTable self.now }
    {
        let _entries = &self.entries;
        self.size
    }

    /// The operation.
    pub fn value(&self, x: u8, y: u8) -> u8
        requires row { x < self.now.size }
        requires column { y < self.now.size }
        ensures value { result ≡ times self.now x y }
        ensures below { result < self.now.size }
    {
        let entries = &self.entries;
        entries[x as usize * self.size as usize + y as usize]
    }

    /// The value of a term at a point.
    pub fn eval(&self, term: &Term, point: &Point) -> u8
        requires variables { bound (tree_of term.now) ≤ point.now.variables }
        requires few { point.now.variables ≤ 8 }
        requires below { (v : ℕ) → v < point.now.variables → slice_index point.now.values v < self.now.size }
        ensures value { result ≡ meaning (times self.now) (assigned (values_of point.now)) (tree_of term.now) }
        ensures below { result < self.now.size }
    {
        match term {
            Term::Var(v) => point.values[*v as usize],
            Term::Op(l, r) => self.value(self.eval(l.get(), point), self.eval(r.get(), point)),
        }
    }

    /// The first failing assignment of a listed law, in lexicographic order with variable 0 first,
    /// among the first 16777216.
    pub fn first_failure(&self, law: &Law) -> Verdict
        requires listed { Listed (equation_of law.now) }
        requires small { law_ops (equation_of law.now) ≤ 5 }
        ensures verdict { IsVerdict self.now (equation_of law.now) result }
        ensures tells { Tells self.now (equation_of law.now) result }
        ensures variables { HasVariables (equation_of law.now) (variables (equation_of law.now)) }
    {
        macro_rules! by_variables {
            ($($k:literal)*) => {
                match variables_of(law) {
                    $($k => self.first_failure_of::<$k>(law),)*
                    _ => unreachable!(),
                }
            };
        }
        by_variables!(1 2 3 4 5 6 7)
    }

    // The same for a law of K variables.
    fn first_failure_of<const K: usize>(&self, law: &Law) -> Verdict
        requires listed { Listed (equation_of law.now) }
        requires small { law_ops (equation_of law.now) ≤ 5 }
        requires variables { variables (equation_of law.now) ≡ K }
        ensures verdict { IsVerdict self.now (equation_of law.now) result }
        ensures tells { Tells self.now (equation_of law.now) result }
        ensures variables { HasVariables (equation_of law.now) (variables (equation_of law.now)) }
    {
        let count = variables_of(law);
        let looked_at = self.assignments(count).min(LOOKED_AT);
        CompiledLaw::of(law, count).walk::<K>(self, looked_at)
    }

    /// How many assignments so many variables have.
    pub(crate) fn assignments(&self, count: u8) -> u64
        requires { count ≤ 7 }
        ensures { result ≡ self.now.size ^ count }
    {
        (self.size() as u64).pow(count as u32)
    }
}
