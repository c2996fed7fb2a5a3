// Searches by levels over the edges, from one end to the other.
ghost use Rattle.std.specs.Prelude.{◌≡◌, ℕ, ◌+◌, ◌<◌, ◌^◌, ◌++◌, ◌∷◌, [], All, Contains, List, length, slice_index, slice_set, IfOk, OnOk};
ghost use Rattle.etp_chain.specs.Edges.{IsEnds};
ghost use Rattle.etp_chain.specs.Searches.{IsSearched, IsSpread, IsFound, Leads, Grows};

use crate::ends::Ends;
use std::alloc::{AllocError, Global};
use std::mem;

// For each law one more than the least number of edges that lead to it from the first law, or 0.
pub(crate) fn search(
    alloc: Global,
    from: &Ends,
    to: &Ends,
    size: usize,
    first: u32,
) -> Result<Vec<usize>, AllocError>
    requires from_ready { IsEnds size from.now }
    requires to_ready { IsEnds size to.now }
    requires same_length { length to.now.laws.items ≡ length from.now.laws.items }
    requires first_in { first < size }
    ensures size { IfOk result (λ found. length found.items ≡ size) }
    ensures searched { IfOk result (λ found. IsSearched from.now.laws.items to.now.laws.items first found.items) }
{
    let mut found = vec![in alloc; 0usize; size]?;
    search_levels(alloc, &mut found, from, to, first)?;
    Ok(found)
}

// Searches level by level, where nothing is found yet.
fn search_levels(
    alloc: Global,
    found: &mut [usize],
    from: &Ends,
    to: &Ends,
    first: u32,
) -> Result<(), AllocError>
    requires from_ready { IsEnds (length found.old) from.now }
    requires to_ready { IsEnds (length found.old) to.now }
    requires same_length { length to.now.laws.items ≡ length from.now.laws.items }
    requires first_in { first < length found.old }
    requires none { (law : ℕ) → slice_index found.old law ≡ 0 }
    requires few { length found.old + 2 < 2 ^ 64 }
    ensures { OnOk result (IsSearched from.now.laws.items to.now.laws.items first found.new) }
{
    let mut level = Vec::new(alloc);
    let mut next = Vec::new(alloc);
    find(found, &mut level, first, 1)?;
    let mut code = 1;
    'levels: while !level.is_empty() {
        spread(found, &mut next, from, to, &level, code)?;
        mem::swap(&mut level, &mut next);
        next.clear();
        code += 1;
    }
    Ok(())
}

// Finds a law, as one of a level.
fn find(found: &mut [usize], level: &mut Vec<u32>, law: u32, code: usize) -> Result<(), AllocError>
    requires law_in { law < length found.old }
    ensures set { OnOk result (found.new ≡ slice_set found.old law code) }
    ensures pushed { OnOk result (level.new.items ≡ level.old.items ++ law ∷ []) }
{
    level.push(law)?;
    found[law as usize] = code;
    Ok(())
}

// Finds the next level, from the edges of all laws of a level.
fn spread(
    found: &mut [usize],
    next: &mut Vec<u32>,
    from: &Ends,
    to: &Ends,
    level: &[u32],
    code: usize,
) -> Result<(), AllocError>
    requires from_ready { IsEnds (length found.old) from.now }
    requires to_ready { IsEnds (length found.old) to.now }
    requires same_length { length to.now.laws.items ≡ length from.now.laws.items }
    requires room { code + 1 < 2 ^ 64 }
    requires level_in { All (λ law. law < length found.old) level.now }
    ensures grows { OnOk result (Grows found.old found.new next.old.items next.new.items) }
    ensures spread { OnOk result ((start : ℕ) → IsSpread from.now.laws.items to.now.laws.items start code found.old level.now next.old.items → IsSpread from.now.laws.items to.now.laws.items start code found.new level.now next.new.items) }
    ensures done { OnOk result ((a b : ℕ) → Leads from.now.laws.items to.now.laws.items a b → Contains level.now a → IsFound found.new b) }
{
    for law in level {
        spread_law(found, next, from, to, *law, code)?;
    }
    Ok(())
}

// Finds laws of the next level, from the edges of one law.
fn spread_law(
    found: &mut [usize],
    next: &mut Vec<u32>,
    from: &Ends,
    to: &Ends,
    law: u32,
    code: usize,
) -> Result<(), AllocError>
    requires law_in { law < length found.old }
    requires from_ready { IsEnds (length found.old) from.now }
    requires to_ready { IsEnds (length found.old) to.now }
    requires same_length { length to.now.laws.items ≡ length from.now.laws.items }
    requires room { code + 1 < 2 ^ 64 }
    ensures grows { OnOk result (Grows found.old found.new next.old.items next.new.items) }
    ensures spread { OnOk result ((start : ℕ) (level : List ℕ) → Contains level law → IsSpread from.now.laws.items to.now.laws.items start code found.old level next.old.items → IsSpread from.now.laws.items to.now.laws.items start code found.new level next.new.items) }
    ensures done { OnOk result ((b : ℕ) → Leads from.now.laws.items to.now.laws.items law b → IsFound found.new b) }
{
    let mut last = from.last(law);
    'edges: while last > 0 {
        let other = to.laws[last - 1];
        if found[other as usize] == 0 {
            find(found, next, other, code + 1)?;
        }
        last = from.before(last - 1);
    }
    Ok(())
}
