ghost use Rattle.std.specs.Prelude.{◌≡◌, OnOk, OnErr};
ghost use Rattle.etp_io.specs.Causes.{Rose, HasCause};
ghost use Rattle.etp_io.specs.Stream.{AppendsPrefix};
ghost use Rattle.etp_command.specs.Values.{operations_of};
ghost use Rattle.etp_tasks.specs.Listings.{laws_text, WritesLaws, MovesFront};
ghost use Rattle.etp_tasks.specs.Writing.{WritesText};

use etp_command::ListOrder;
use etp_io::{Failed, Sink, write_all};
use etp_laws::Laws;
use etp_show::append_law_line;
use etp_text::Text;
use std::alloc::Global;

/// How many bytes are gathered before they are written.
const PIECE: u32 = 4096;

// Writes the text once it is long enough, and begins it anew.
fn write_piece<K: Sink>(text: &mut Text, sink: &mut K) -> Result<(), Failed>
    ensures ok { OnOk result (MovesFront text.old text.new (K.took sink.old) (K.took sink.new)) }
    ensures err { OnErr result (AppendsPrefix (K.took sink.old) (K.took sink.new) text.old) }
    ensures cause { HasCause (K.faults sink.old) (K.faults sink.new) result }
{
    if text.len() < PIECE {
        return Ok(());
    }
    write_all(sink, text.as_slice())?;
    text.clear();
    Ok(())
}

/// Writes the laws of at most so many operations, each as a session's `law` writes it, and answers
/// the status: 0 where all was written, 4 where a write failed, 5 for want of memory. Beside the
/// list it keeps no more than a piece of the text.
pub fn list_laws<K: Sink>(alloc: Global, order: ListOrder, sink: &mut K) -> u8
    ensures laws { WritesLaws (operations_of order) (K.took sink.old) (K.took sink.new) result }
    ensures write { result ≡ 4 → Rose (K.faults sink.old) (K.faults sink.new) }
{
    match Laws::build_to(alloc, order.operations()) {
        Ok(laws) => write_laws(alloc, &laws, sink),
        Err(_) => 5,
    }
}

// Writes the laws one after another, in pieces.
fn write_laws<K: Sink>(alloc: Global, laws: &Laws, sink: &mut K) -> u8
    ensures laws { WritesText (laws_text laws.now.equations)
        (K.took sink.old) (K.took sink.new) result }
    ensures write { result ≡ 4 → Rose (K.faults sink.old) (K.faults sink.new) }
{
    let mut text = Text::empty(alloc);
    'listed: for n in 0..laws.count() {
        let law = laws.law(n + 1).unwrap();
        match append_law_line(&mut text, n + 1, law) {
            Ok(()) => {}
            Err(_) => return 5,
        }
        match write_piece(&mut text, sink) {
            Ok(()) => {}
            Err(_) => return 4,
        }
    }
    match write_all(sink, text.as_slice()) {
        Ok(()) => 0,
        Err(_) => 4,
    }
}
