// Shortest proofs.
ghost use Rattle.std.specs.Prelude.{◌≡◌, ◌≤◌, ◌++◌, IfOk, OnOk};
ghost use Rattle.etp_io.specs.Causes.{Rose};
ghost use Rattle.etp_tasks.specs.Searches.{searched_text, IsSearchOf};
ghost use Rattle.etp_tasks.specs.Writing.{WritesSome};

use etp_io::{Sink, write_all};
use etp_items::Body;
use etp_laws::Laws;
use etp_search::{Searched, shortest};
use etp_show::append_printed;
use etp_term::NoMemory;
use etp_text::Text;
use std::alloc::Global;

/// The question for a shortest proof from one law of order 4 to another: over terms of at most
/// `leaves` leaves, 1 to 6, and with at most `steps` steps, 0 to 12.
#[derive(Clone, Copy)]
pub struct Search {
    pub hypothesis: u32,
    pub goal: u32,
    pub leaves: u8,
    pub steps: u8,
}

/// Writes what the search comes to, and answers the status: 0 where all was written, 4 where a write
/// failed, 5 for want of memory.
pub fn write_search<K: Sink>(alloc: Global, search: Search, sink: &mut K) -> u8
    requires hypothesis { (1 ≤ search.hypothesis) × (search.hypothesis ≤ 4694) }
    requires goal { (1 ≤ search.goal) × (search.goal ≤ 4694) }
    requires leaves { (1 ≤ search.leaves) × (search.leaves ≤ 6) }
    requires steps { search.steps ≤ 12 }
    ensures search { WritesSome
        (IsSearchOf search.hypothesis search.goal search.leaves search.steps)
        (K.took sink.old) (K.took sink.new) result }
    ensures write { result ≡ 4 → Rose (K.faults sink.old) (K.faults sink.new) }
{
    let Ok(text) = searched(alloc, search) else {
        return 5;
    };
    match write_all(sink, text.as_slice()) {
        Ok(()) => 0,
        Err(_) => 4,
    }
}

/// The text of what the search comes to.
fn searched(alloc: Global, search: Search) -> Result<Text, NoMemory>
    requires hypothesis { (1 ≤ search.hypothesis) × (search.hypothesis ≤ 4694) }
    requires goal { (1 ≤ search.goal) × (search.goal ≤ 4694) }
    requires leaves { (1 ≤ search.leaves) × (search.leaves ≤ 6) }
    requires steps { search.steps ≤ 12 }
    ensures { IfOk result
        (IsSearchOf search.hypothesis search.goal search.leaves search.steps) }
{
    let Search {
        hypothesis,
        goal,
        leaves,
        steps,
    } = search;
    let laws = Laws::build(alloc)?;
    let _count = laws.count();
    let searched = shortest(alloc, &laws, hypothesis, goal, leaves, steps)?;
    let mut text = Text::empty(alloc);
    append_searched(alloc, &mut text, leaves, steps, searched)?;
    Ok(text)
}

fn append_searched(
    alloc: Global,
    text: &mut Text,
    leaves: u8,
    steps: u8,
    searched: Searched,
) -> Result<(), NoMemory>
    ensures { OnOk result (text.new ≡ text.old ++ searched_text leaves steps searched) }
{
    match searched {
        Searched::Found(proof) => {
            let body = Body::Proof(proof);
            append_printed(alloc, text, b"shortest", &body)
        }
        Searched::Nothing => {
            text.append(b"none within ")?;
            text.append_number(u64::from(leaves))?;
            text.append(b" leaves ")?;
            text.append_number(u64::from(steps))?;
            text.append(b" steps\n")
        }
        Searched::Budget { level } => {
            text.append(b"budget at ")?;
            text.append_number(u64::from(level))?;
            text.append(b"\n")
        }
    }
}
