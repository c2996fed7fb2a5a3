// Words that ask for no session.
ghost use Rattle.std.specs.Prelude.{◌≡◌, ◌↔◌, ◌⊎◌, map};
ghost use Rattle.std.specs.String.{string_bytes};
ghost use Rattle.etp_arguments.specs.Arguments.{task_of, IsTask};
ghost use Rattle.etp_arguments.specs.declared.task.Task.TheVariants.{Session, Unknown};

use etp_io::{Shelf, Source, SureSink};
use etp_session::run;
use std::alloc::Global;

/// Does what words ask that are no session's, over a sink that never fails. All is written, or memory
/// was wanted, or the words ask nothing; the source and the shelf are not asked.
pub fn run_other_words<S: Source, H: Shelf>(
    alloc: Global,
    words: &[String],
    source: &mut S,
    shelf: &mut H,
) -> u8
    requires words { IsTask (map string_bytes words.now) Session → ⊥ }
    ensures nothing { result ≡ 2 ↔ (task_of (map string_bytes words.now) ≡ Unknown) }
    ensures statuses { (result ≡ 0) ⊎ ((result ≡ 2) ⊎ (result ≡ 5)) }
    ensures unread { (source.new ≡ source.old) × (shelf.new ≡ shelf.old) }
{
    let mut sink = SureSink;
    run(alloc, words, source, &mut sink, shelf)
}
