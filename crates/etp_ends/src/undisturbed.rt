// Sessions that nothing outside ends early.
ghost use Rattle.std.specs.Prelude.{◌≡◌, ◌⊎◌, ℕ, List, Bool, Some, map};
ghost use Rattle.std.specs.declared.option.Option.{Option};
ghost use Rattle.std.specs.String.{string_bytes};
ghost use Rattle.etp_arguments.specs.Arguments.{IsTask};
ghost use Rattle.etp_arguments.specs.declared.task.Task.TheVariants.{Session};
ghost use Rattle.etp_reply.specs.Shelves.{known};
ghost use Rattle.etp_serving.specs.Streams.{streams};
ghost use Rattle.etp_serving.specs.Protocols.{ledger_protocol};
ghost use Rattle.etp_serving.specs.Sessions.{IsSession};
ghost use Rattle.etp_ends.specs.Undisturbed.{IsUndisturbed, status_for};

use etp_io::{Shelf, Sink, Source};
use etp_serving::one_text;
use etp_session::run;
use std::alloc::Global;

/// Runs a session. Where no read and no write fails and no stream passes its limit, it comes to its
/// end, or memory was wanted. Where the source and the shelf tell what they have, the status is then
/// 1 where the text has a refusal line, and 0 where it has none.
pub fn run_undisturbed<S: Source, K: Sink, H: Shelf>(
    alloc: Global,
    words: &[String],
    source: &mut S,
    sink: &mut K,
    shelf: &mut H,
) -> u8
    requires words { IsTask (map string_bytes words.now) Session }
    ensures ends { IsUndisturbed (ledger_protocol (known 134217728 (H.keeps shelf.old)))
        (streams S.Source K.Sink H.Shelf source.old sink.old shelf.old)
        (streams S.Source K.Sink H.Shelf source.new sink.new shelf.new)
        → (result ≡ 0) ⊎ ((result ≡ 1) ⊎ (result ≡ 5)) }
    ensures told { (bytes text : List ℕ) (kept : List ℕ → Option (List ℕ)) (refused : Bool)
        → S.left source.old ≡ Some bytes → H.keeps shelf.old ≡ Some kept
        → IsSession (ledger_protocol (known 134217728 (Some kept))) bytes text refused
        → IsUndisturbed (ledger_protocol (known 134217728 (H.keeps shelf.old)))
        (streams S.Source K.Sink H.Shelf source.old sink.old shelf.old)
        (streams S.Source K.Sink H.Shelf source.new sink.new shelf.new)
        → (result ≡ 5) ⊎ (result ≡ status_for refused) }
{
    one_text();
    run(alloc, words, source, sink, shelf)
}
