// Sessions, line by line.
ghost use Rattle.std.specs.Prelude.{◌≡◌, ◌↔◌, IsTrue, ◌++◌, [], ◌+◌, ◌-◌, ◌≤◌, ℕ, List, length, IfOk, IfErr, IfSome, OnOk, IsErrOf, ◌⊎◌, ◌||◌, true, false};
ghost use Rattle.etp_io.specs.Causes.{Rose};
ghost use Rattle.etp_reading.specs.Reading.{given_text};
ghost use Rattle.etp_desk.specs.States.{State, unopened};
ghost use Rattle.etp_reply.specs.Shelves.{known};
ghost use Rattle.etp_reply.specs.Replies.{Reaches};
ghost use Rattle.etp_reply.specs.Given.{GivesReply};
ghost use Rattle.etp_reply.specs.Desks.{IsDesk, IsSound, HasRightLaws};
ghost use Rattle.etp_serving.specs.Loads.{LoadsLong};
ghost use Rattle.etp_serving.specs.Endings.{line_text, WritesNothing, WritesClose, WritesSomeOfClose, IsDone, IsEnd, status_of, unread};
ghost use Rattle.etp_serving.specs.Streams.{streams};
ghost use Rattle.etp_serving.specs.Protocols.{ledger_protocol};
ghost use Rattle.etp_serving.specs.SessionEnds.{SessionEnds};

use crate::loading::load;
use etp_io::{InFault, Lines, Next, Shelf, Sink, Source, write_all};
use etp_reply::{Desk, Outcome, respond, respond_at_end};
use etp_text::Text;
use std::alloc::Global;

/// How a session ended: all was read and written, and whether a line was refused; or why not.
#[derive(Clone, Copy, Debug, PartialEq, Eq)]
pub enum Ending {
    Done(bool),
    ReadFault,
    WriteFault,
    NoMemory,
    TooMuch,
}

fn status(ending: Ending) -> u8
    ensures { result ≡ status_of ending }
{
    match ending {
        Ending::Done(false) => 0,
        Ending::Done(true) => 1,
        Ending::ReadFault => 3,
        Ending::WriteFault => 4,
        Ending::NoMemory => 5,
        Ending::TooMuch => 6,
    }
}

/// Whether nothing was left.
pub(crate) fn is_end(next: Next) -> bool
    ensures { IsTrue result ↔ (next ≡ Next.End) }
{
    match next {
        Next::End => true,
        _ => false,
    }
}

/// The line that was read, or None for one that is too long.
pub(crate) fn line_read(next: Next, lines: &Lines) -> Option<&[u8]>
    requires more { next ≡ Next.End → ⊥ }
    requires short { length lines.now.line ≤ 4096 }
    ensures text { given_text result ≡ line_text next lines.now.line }
    ensures short { IfSome result (λ line. length line.now ≤ 4096) }
{
    match next {
        Next::Line => Some(lines.line()),
        Next::Long => None,
        Next::End => unreachable!(),
    }
}

// Answers a file whose body isn't closed where the source ends, and ends the session; `refused`
// says whether a line was refused before.
fn close<K: Sink>(
    alloc: Global,
    desk: &mut Desk,
    text: &mut Text,
    refused: bool,
    sink: &mut K,
) -> Ending
    requires { IsSound desk.old }
    ensures done { IsDone result (λ bad. (state : State) → IsDesk desk.old state
        → WritesClose state refused (K.took sink.old) (K.took sink.new) bad) }
    ensures memory { result ≡ Ending.NoMemory → WritesNothing (K.took sink.old) (K.took sink.new) }
    ensures write { result ≡ Ending.WriteFault → (state : State) → IsDesk desk.old state
        → WritesSomeOfClose state refused (K.took sink.old) (K.took sink.new) }
    ensures cause { result ≡ Ending.WriteFault → Rose (K.faults sink.old) (K.faults sink.new) }
    ensures ends { IsEnd result }
{
    text.clear();
    let Ok(also) = respond_at_end(alloc, text, desk) else {
        return Ending::NoMemory;
    };
    match write_all(sink, text.as_slice()) {
        Ok(()) => Ending::Done(either(refused, also)),
        Err(_) => Ending::WriteFault,
    }
}

fn either(a: bool, b: bool) -> bool
    ensures { result ≡ (a || b) }
{
    a || b
}

// Writes the reply to a line, which is None where it is too long, and answers whether it is a
// refusal. A file that the line loads is read from the shelf.
fn answer_line<H: Shelf>(
    alloc: Global,
    limit: u64,
    text: &mut Text,
    desk: &mut Desk,
    line: Option<&[u8]>,
    number: u64,
    shelf: &mut H,
) -> Result<bool, Ending>
    requires limit { limit ≤ 134217728 }
    requires empty { text.old ≡ [] }
    requires sound { IsSound desk.old }
    requires short { IfSome line (λ line. length line.now ≤ 4096) }
    ensures ok { IfOk result (λ refused. (state : State) → IsDesk desk.old state
        → GivesReply (known limit (H.keeps shelf.old)) state number (given_text line.entry)
        text.new refused (IsDesk desk.new)) }
    ensures laws { OnOk result (HasRightLaws desk.new) }
    ensures read { IsErrOf result Ending.ReadFault → Rose (H.faults shelf.old) (H.faults shelf.new)
        × ((state : State) → IsDesk desk.old state
        → Reaches state (given_text line.entry) (H.failed_name shelf.new)) }
    ensures too_much { IsErrOf result Ending.TooMuch → (state : State) → IsDesk desk.old state
        → LoadsLong (known limit (H.keeps shelf.old)) state (given_text line.entry)
        (H.given shelf.old) (H.given shelf.new) }
    ensures errors { IfErr result (λ e.
        (e ≡ Ending.NoMemory) ⊎ ((e ≡ Ending.ReadFault) ⊎ (e ≡ Ending.TooMuch))) }
    ensures keeps { H.keeps shelf.new ≡ H.keeps shelf.old }
    ensures untouched { (state : State) → IsDesk desk.old state
        → (shelf.new ≡ shelf.old) ⊎ ((name : List ℕ) × Reaches state (given_text line.entry) name) }
    ensures later { (H.faults shelf.old ≤ H.faults shelf.new)
        × (H.given shelf.old ≤ H.given shelf.new) }
{
    match respond(alloc, text, desk, line, number) {
        Ok(Outcome::Replied(refused)) => Ok(refused),
        Ok(Outcome::Loads(name, filing)) => load(alloc, limit, text, desk, name, filing, shelf),
        Err(_) => Err(Ending::NoMemory),
    }
}

// Serves a session to its end.
fn serve<S: Source, K: Sink, H: Shelf>(
    alloc: Global,
    limit: u64,
    source: &mut S,
    sink: &mut K,
    shelf: &mut H,
) -> Ending
    requires { limit ≤ 134217728 }
    ensures { SessionEnds (ledger_protocol (known limit (H.keeps shelf.old)))
        (streams S.Source K.Sink H.Shelf source.old sink.old shelf.old)
        (streams S.Source K.Sink H.Shelf source.new sink.new shelf.new) (status_of result) }
{
    let Ok(mut lines) = Lines::start(alloc, limit) else {
        return Ending::NoMemory;
    };
    let mut text = Text::empty(alloc);
    let mut desk = Desk::start();
    serve_lines(
        alloc, limit, &mut lines, &mut text, &mut desk, source, sink, shelf,
    )
}

// Answers the lines of the source, from the first one on.
fn serve_lines<S: Source, K: Sink, H: Shelf>(
    alloc: Global,
    limit: u64,
    lines: &mut Lines,
    text: &mut Text,
    desk: &mut Desk,
    source: &mut S,
    sink: &mut K,
    shelf: &mut H,
) -> Ending
    requires limit { limit ≤ 134217728 }
    requires unread { lines.old ≡ unread limit }
    requires first { IsDesk desk.old unopened }
    requires laws { HasRightLaws desk.old }
    ensures { SessionEnds (ledger_protocol (known limit (H.keeps shelf.old)))
        (streams S.Source K.Sink H.Shelf source.old sink.old shelf.old)
        (streams S.Source K.Sink H.Shelf source.new sink.new shelf.new) (status_of result) }
{
    let mut refused = false;
    'served: loop {
        let next = match lines.next(source) {
            Ok(next) => next,
            Err(InFault::ReadFault) => return Ending::ReadFault,
            Err(InFault::TooMuch { .. }) => return Ending::TooMuch,
        };
        if is_end(next) {
            return close(alloc, desk, text, refused, sink);
        }
        let line = line_read(next, lines);
        text.clear();
        match answer_line(alloc, limit, text, desk, line, lines.number(), shelf) {
            Ok(also) => refused = either(refused, also),
            Err(ending) => return ending,
        }
        match write_all(sink, text.as_slice()) {
            Ok(()) => {}
            Err(_) => return Ending::WriteFault,
        }
    }
}

/// Serves a session: answers the commands of the source, line by line, on the sink, with the bodies
/// of the files that it loads from the shelf, and answers the status. `limit` is the most bytes of
/// the source, and of a name on the shelf.
///
/// The status is 0 where all was read and written and no line was refused, 1 where one was,
/// 3 where a read failed, 4 where a write failed, 5 for want of memory, which may come at any
/// time, and 6 where more than `limit` bytes of the source or of a name were taken.
pub fn session<S: Source, K: Sink, H: Shelf>(
    alloc: Global,
    limit: u64,
    source: &mut S,
    sink: &mut K,
    shelf: &mut H,
) -> u8
    requires { limit ≤ 134217728 }
    ensures { SessionEnds (ledger_protocol (known limit (H.keeps shelf.old)))
        (streams S.Source K.Sink H.Shelf source.old sink.old shelf.old)
        (streams S.Source K.Sink H.Shelf source.new sink.new shelf.new) result }
{
    status(serve(alloc, limit, source, sink, shelf))
}
