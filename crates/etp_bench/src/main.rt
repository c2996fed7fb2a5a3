//! Fills a closure of the laws of at most four operations with drawn facts, twice, and prints how
//! many pairs of laws have each answer. The times stand on the error stream.
#![tactic(auto)]

mod counts;
mod draws;
mod filling;
mod words;

ghost use Rattle.std.specs.Prelude.{◌≡◌, All, length};
ghost use Rattle.etp_theory.specs.LawNumbers.{IsLaw};
ghost use Rattle.etp_bench.specs.Filling.{IsFull, IsBetweenLaws};

use counts::totals;
use draws::{Draws, Implication, draw_implications, draw_laws};
use etp_closure::Closure;
use etp_laws::Laws;
use filling::{add_implications, add_refutations, full_closure};
use std::io;
use std::time::Instant;
use words::{Sizes, read_sizes};

// Adds the facts, and prints the counts and the times.
fn fill(
    rt: &HostRuntime,
    closure: &mut Closure,
    implications: &[Implication],
    lists: &[u32],
    sizes: Sizes,
) -> io::Result<()>
    requires full { IsFull closure.old }
    requires implications_in { All (IsBetweenLaws (length closure.old.duals)) implications.now }
    requires lists_in { All (IsLaw (length closure.old.duals)) lists.now }
    ensures duals { closure.new.duals ≡ closure.old.duals }
    ensures slots { closure.new.slots ≡ closure.old.slots }
{
    let start = Instant::now(rt)?;
    add_implications(closure, implications);
    let implied = start.elapsed(rt)?.as_micros();
    add_refutations(closure, lists, sizes.refutations, sizes.laws as usize);
    let filled = start.elapsed(rt)?.as_micros();
    let totals = totals(closure);
    let counted = start.elapsed(rt)?.as_micros();
    println!(rt; "{totals}")?;
    eprintln!(rt;
        "microseconds: implications to {implied}, refutations to {filled}, counts to {counted}"
    )
}

fn main(rt: HostRuntime) -> io::Result<()> {
    let sizes = read_sizes(&rt)?;
    let laws = Laws::build(rt.alloc())?;
    let mut closure = full_closure(rt.alloc(), &laws)?;
    let mut draws = Draws::start();
    let count = laws.count();
    let implications = draw_implications(rt.alloc(), &mut draws, count, sizes.implications)?;
    let lists = draw_laws(rt.alloc(), &mut draws, count, sizes.drawn_laws())?;
    fill(&rt, &mut closure, &implications, &lists, sizes)?;
    let start = Instant::now(&rt)?;
    closure.clear();
    let cleared = start.elapsed(&rt)?.as_micros();
    eprintln!(&rt; "microseconds: clear {cleared}")?;
    fill(&rt, &mut closure, &implications, &lists, sizes)
}
