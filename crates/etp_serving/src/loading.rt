// Files whose bodies are read from the shelf.
ghost use Rattle.std.specs.Prelude.{◌≡◌, ◌↔◌, ◌+◌, ◌-◌, ◌^◌, ◌≤◌, ◌<◌, ◌⊎◌, min, ℕ, [], length, IfOk, IfErr, OnOk, IsErrOf};
ghost use Rattle.etp_io.specs.Causes.{Rose};
ghost use Rattle.etp_desk.specs.Desks.{opened_of};
ghost use Rattle.etp_reply.specs.Shelves.{known, IsTooLong};
ghost use Rattle.etp_reply.specs.Replies.{LoadReply};
ghost use Rattle.etp_reply.specs.Given.{GivesState};
ghost use Rattle.etp_reply.specs.Desks.{IsDesk, HasRightLaws, IsLoading};
ghost use Rattle.etp_serving.specs.Loads.{LoadedLines};

use crate::serving::{Ending, is_end, line_read};
use etp_io::{InFault, Lines, Shelf};
use etp_reply::{Desk, Filing, respond_loaded, take_line};
use etp_text::Text;
use std::alloc::Global;

// Why a line of the shelf isn't read.
fn ending_of(fault: InFault) -> Ending
    ensures read { (result ≡ Ending.ReadFault) ↔ (fault ≡ InFault.ReadFault) }
    ensures value { (result ≡ Ending.ReadFault) ⊎ (result ≡ Ending.TooMuch) }
{
    match fault {
        InFault::ReadFault => Ending::ReadFault,
        InFault::TooMuch { .. } => Ending::TooMuch,
    }
}

// Reads the whole bytes of a name on the shelf as the body lines of a file.
fn read_body<H: Shelf>(
    alloc: Global,
    limit: u64,
    filing: Filing,
    name: &[u8],
    shelf: &mut H,
) -> Result<Filing, Ending>
    requires limit { limit ≤ 134217728 }
    requires name { (0 < length name.now) × (length name.now ≤ 64) }
    ensures ok { IfOk result (λ read.
        LoadedLines (known limit (H.keeps shelf.old)) name.now filing read) }
    ensures read { IsErrOf result Ending.ReadFault
        → Rose (H.faults shelf.old) (H.faults shelf.new) × (H.failed_name shelf.new ≡ name.now) }
    ensures too_much { IsErrOf result Ending.TooMuch
        → IsTooLong (known limit (H.keeps shelf.old)) name.now
        × (min (H.given shelf.old + (limit + 1)) (2 ^ 64 - 1) ≤ H.given shelf.new) }
    ensures errors { IfErr result (λ e.
        (e ≡ Ending.NoMemory) ⊎ ((e ≡ Ending.ReadFault) ⊎ (e ≡ Ending.TooMuch))) }
    ensures keeps { H.keeps shelf.new ≡ H.keeps shelf.old }
    ensures later { (H.faults shelf.old ≤ H.faults shelf.new)
        × (H.given shelf.old ≤ H.given shelf.new) }
{
    let Ok(mut lines) = Lines::start(alloc, limit) else {
        return Err(Ending::NoMemory);
    };
    let mut filing = filing;
    'read: loop {
        let next = match lines.next_at(shelf, name) {
            Ok(next) => next,
            Err(fault) => return Err(ending_of(fault)),
        };
        if is_end(next) {
            return Ok(filing);
        }
        let Ok(more) = take_line(filing, line_read(next, &lines)) else {
            return Err(Ending::NoMemory);
        };
        filing = more;
    }
}

/// Reads a file from the shelf, and writes the reply to it.
pub(crate) fn load<H: Shelf>(
    alloc: Global,
    limit: u64,
    text: &mut Text,
    desk: &mut Desk,
    name: &[u8],
    filing: Filing,
    shelf: &mut H,
) -> Result<bool, Ending>
    requires limit { limit ≤ 134217728 }
    requires empty { text.old ≡ [] }
    requires laws { HasRightLaws desk.old }
    requires loads { (n : ℕ) × IsLoading desk.old n name.now [] filing }
    ensures ok { IfOk result (λ refused. (n : ℕ) (at : IsLoading desk.old n name.now [] filing)
        → GivesState n text.new refused
        (LoadReply (known limit (H.keeps shelf.old)) (opened_of at.opened) n name.now)
        (IsDesk desk.new)) }
    ensures laws { OnOk result (HasRightLaws desk.new) }
    ensures read { IsErrOf result Ending.ReadFault
        → Rose (H.faults shelf.old) (H.faults shelf.new) × (H.failed_name shelf.new ≡ name.now) }
    ensures too_much { IsErrOf result Ending.TooMuch
        → IsTooLong (known limit (H.keeps shelf.old)) name.now
        × (min (H.given shelf.old + (limit + 1)) (2 ^ 64 - 1) ≤ H.given shelf.new) }
    ensures errors { IfErr result (λ e.
        (e ≡ Ending.NoMemory) ⊎ ((e ≡ Ending.ReadFault) ⊎ (e ≡ Ending.TooMuch))) }
    ensures keeps { H.keeps shelf.new ≡ H.keeps shelf.old }
    ensures later { (H.faults shelf.old ≤ H.faults shelf.new)
        × (H.given shelf.old ≤ H.given shelf.new) }
{
    let filing = match read_body(alloc, limit, filing, name, shelf) {
        Ok(filing) => filing,
        Err(ending) => return Err(ending),
    };
    match respond_loaded(alloc, text, desk, filing) {
        Ok(refused) => Ok(refused),
        Err(_) => Err(Ending::NoMemory),
    }
}
