// The slots of the laws that are kept: for each law one more than its slot, or 0.
ghost use Rattle.std.specs.Prelude.{◌≡◌, ℕ, ◌+◌, ◌<◌, ◌≤◌, ◌^◌, ◌⊎◌, ◌↔◌, All, OnOk, OnErr, Some, length, vec_len, take, slice_index};
ghost use Rattle.etp_theory.specs.LawNumbers.{IsLaw, dual_number};
ghost use Rattle.etp_closure.specs.Closures.{IsKept, slot_of, IsReserved};
ghost use Rattle.etp_closure.specs.Tables.{IsOneToOne, Extends, IsNamed};

use std::alloc::AllocError;

// The slot of a law, where it is kept.
pub(crate) fn slot_at(slots: &[u32], law: u32) -> Option<u32>
    requires { IsLaw (length slots.now) law }
    ensures { result ≡ slot_of slots.now law }
{
    match slots[law as usize - 1] {
        0 => None,
        code => Some(code - 1),
    }
}

// The slot of a law that is kept.
pub(crate) fn kept_slot(slots: &[u32], law: u32) -> u32
    requires { IsKept slots.now law }
    ensures { slot_of slots.now law ≡ Some result }
{
    slots[law as usize - 1] - 1
}

// Gives a law the next slot, where it has none.
pub(crate) fn keep(slots: &mut [u32], laws: &mut Vec<u32>, law: u32) -> Result<(), AllocError>
    requires law_in { IsLaw (length slots.old) law }
    requires paired { IsOneToOne slots.old laws.old.items }
    requires few { vec_len laws.old < 2 ^ 32 }
    ensures paired { IsOneToOne slots.new laws.new.items }
    ensures few { vec_len laws.new < 2 ^ 32 }
    ensures extends { Extends slots.old laws.old.items slots.new laws.new.items }
    ensures kept { OnOk result (IsKept slots.new law) }
    ensures only { (other : ℕ) → IsKept slots.new other → IsKept slots.old other ⊎ (other ≡ law) }
{
    let place = law as usize - 1;
    if slots[place] == 0 {
        if laws.len() >= u32::MAX as usize {
            return Err(AllocError);
        }
        laws.push(law)?;
        slots[place] = laws.len() as u32;
    }
    Ok(())
}

// Gives the laws of a list and their duals slots, where they have none.
pub(crate) fn keep_all(
    slots: &mut [u32],
    laws: &mut Vec<u32>,
    duals: &[u32],
    list: &[u32],
) -> Result<(), AllocError>
    requires size { length slots.old ≡ length duals.now }
    requires duals_in { (law : ℕ) → IsLaw (length duals.now) law
        → IsLaw (length duals.now) (dual_number duals.now law) }
    requires list_in { All (IsLaw (length duals.now)) list.now }
    requires paired { IsOneToOne slots.old laws.old.items }
    requires few { vec_len laws.old < 2 ^ 32 }
    ensures paired { IsOneToOne slots.new laws.new.items }
    ensures few { vec_len laws.new < 2 ^ 32 }
    ensures extends { Extends slots.old laws.old.items slots.new laws.new.items }
    ensures kept { OnOk result
        (All (λ law. IsKept slots.new law × IsKept slots.new (dual_number duals.now law))
        list.now) }
    ensures only { (other : ℕ) → IsKept slots.new other → IsKept slots.old other ⊎ IsNamed duals.now list.now other }
{
    for law in list {
        keep(slots, laws, *law)?;
        keep(slots, laws, duals[*law as usize - 1])?;
    }
    Ok(())
}

// Gives the laws of two lists and their duals slots, where they have none.
fn keep_both(
    slots: &mut [u32],
    laws: &mut Vec<u32>,
    duals: &[u32],
    first: &[u32],
    second: &[u32],
) -> Result<(), AllocError>
    requires size { length slots.old ≡ length duals.now }
    requires duals_in { (law : ℕ) → IsLaw (length duals.now) law
        → IsLaw (length duals.now) (dual_number duals.now law) }
    requires first_in { All (IsLaw (length duals.now)) first.now }
    requires second_in { All (IsLaw (length duals.now)) second.now }
    requires paired { IsOneToOne slots.old laws.old.items }
    requires few { vec_len laws.old < 2 ^ 32 }
    ensures paired { IsOneToOne slots.new laws.new.items }
    ensures few { vec_len laws.new < 2 ^ 32 }
    ensures extends { Extends slots.old laws.old.items slots.new laws.new.items }
    ensures kept { OnOk result ((law : ℕ) → IsKept slots.new law
        ↔ IsReserved duals.now slots.old first.now second.now law) }
{
    keep_all(slots, laws, duals, first)?;
    keep_all(slots, laws, duals, second)?;
    Ok(())
}

// The same, where nothing changes if it fails.
pub(crate) fn keep_or_leave(
    slots: &mut [u32],
    laws: &mut Vec<u32>,
    duals: &[u32],
    first: &[u32],
    second: &[u32],
) -> Result<(), AllocError>
    requires size { length slots.old ≡ length duals.now }
    requires duals_in { (law : ℕ) → IsLaw (length duals.now) law
        → IsLaw (length duals.now) (dual_number duals.now law) }
    requires first_in { All (IsLaw (length duals.now)) first.now }
    requires second_in { All (IsLaw (length duals.now)) second.now }
    requires paired { IsOneToOne slots.old laws.old.items }
    requires few { vec_len laws.old < 2 ^ 32 }
    ensures paired { IsOneToOne slots.new laws.new.items }
    ensures few { vec_len laws.new < 2 ^ 32 }
    ensures extends { Extends slots.old laws.old.items slots.new laws.new.items }
    ensures kept { OnOk result ((law : ℕ) → IsKept slots.new law
        ↔ IsReserved duals.now slots.old first.now second.now law) }
    ensures err { OnErr result (slots.new ≡ slots.old) }
    ensures err_laws { OnErr result (length laws.new.items ≡ length laws.old.items) }
{
    let before = laws.len();
    let kept = keep_both(slots, laws, duals, first, second);
    if kept.is_err() {
        forget(slots, laws, before);
    }
    kept
}

// Takes the slots from a place on away again.
pub(crate) fn forget(slots: &mut [u32], laws: &mut Vec<u32>, count: usize)
    requires paired { IsOneToOne slots.old laws.old.items }
    requires within { count ≤ vec_len laws.old }
    ensures size { length slots.new ≡ length slots.old }
    ensures laws { laws.new.items ≡ take count laws.old.items }
    ensures paired { IsOneToOne slots.new laws.new.items }
    ensures slots { (law slot : ℕ) → (slot_of slots.new law ≡ Some slot)
        ↔ ((slot_of slots.old law ≡ Some slot) × (slot < count)) }
{
    for place in count..laws.len() {
        slots[laws[place] as usize - 1] = 0;
    }
    laws.truncate(count);
}
