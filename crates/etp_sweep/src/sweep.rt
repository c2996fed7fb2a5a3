ghost use Rattle.std.specs.Prelude.{◌≡◌, ◌≤◌, ◌⊎◌, IsTrue, false, IfOk, IfErr, OnOk};
ghost use Rattle.etp_sweep.specs.Profiles.{greatest_size, IsProfile, LawHoldsIn, IsTooLarge};

use crate::refusal::SweepRefusal;
use etp_bits::Numbers;
use etp_laws::Laws;
use etp_table::{OpTable, Verdict};
use std::alloc::Global;

/// The rising list of the numbers of exactly the laws that hold in the table.
pub fn profile(alloc: Global, laws: &Laws, table: &OpTable) -> Result<Numbers, SweepRefusal>
    ensures exact { IfOk result (λ numbers. IsProfile laws.now.equations table.now numbers) }
    ensures small { OnOk result (table.now.size ≤ greatest_size laws.now.order) }
    ensures err { IfErr result (λ r. (r ≡ SweepRefusal.NoMemory) ⊎ IsTooLarge laws.now.order table.now r) }
{
    let size = table.size();
    if size > greatest_size(laws) {
        return Err(SweepRefusal::ProfileSize { size });
    }
    let mut numbers = Numbers::empty(alloc);
    for before in 0..laws.count() {
        if holds(laws, table, before + 1) {
            numbers.push(before + 1)?;
        }
    }
    Ok(numbers)
}

/// Up to this size all assignments of each law are looked at.
fn greatest_size(laws: &Laws) -> u8
    ensures { result ≡ greatest_size laws.now.order }
{
    if laws.order() == 5 { 10 } else { 16 }
}

/// Whether there is a law of this number and it holds in the table.
fn holds(laws: &Laws, table: &OpTable, number: u32) -> bool
    requires { table.now.size ≤ greatest_size laws.now.order }
    ensures yes { IsTrue result → LawHoldsIn laws.now.equations table.now number }
    ensures no { result ≡ false → LawHoldsIn laws.now.equations table.now number → ⊥ }
{
    let _order = laws.order();
    match laws.law(number) {
        None => false,
        Some(law) => match table.first_failure(law) {
            Verdict::Holds { looked_at: _ } => true,
            Verdict::Fails {
                point: _,
                left: _,
                right: _,
            } => false,
        },
    }
}
