ghost use Rattle.std.specs.Prelude.{◌≡◌, ◌∷◌, [], ◌+◌, ◌-◌, ◌≤◌, ◌↔◌, ◌⊎◌, ℕ, List, Bool, false, true, map, vec_len, Some, IfSome, length};
ghost use Rattle.std.specs.String.{string_bytes};
ghost use Rattle.etp_io.specs.Causes.{Rose};
ghost use Rattle.etp_arguments.specs.Arguments.{task_of, IsTask};
ghost use Rattle.etp_command.specs.Values.{operations_of};
ghost use Rattle.etp_tasks.specs.Listings.{WritesLaws};
ghost use Rattle.etp_tasks.specs.Scripts.{IsScriptOf};
ghost use Rattle.etp_tasks.specs.Searches.{IsSearchOf};
ghost use Rattle.etp_tasks.specs.Writing.{WritesSome};
ghost use Rattle.etp_demo.specs.Demos.{IsDemoOf};
ghost use Rattle.etp_completing.specs.Completions.{IsCompletionOf};
ghost use Rattle.etp_serving.specs.Streams.{streams};
ghost use Rattle.etp_serving.specs.Protocols.{ledger_protocol};
ghost use Rattle.etp_serving.specs.Sessions.{IsWholeSession};
ghost use Rattle.etp_serving.specs.SessionEnds.{SessionEnds};
ghost use Rattle.etp_io.specs.Kept.{kept_or_empty};
ghost use Rattle.std.specs.declared.option.Option.{Option};
ghost use Rattle.etp_reply.specs.Shelves.{known};

use etp_arguments::{Task, task_of};
use etp_command::ListOrder;
use etp_completing::{Completion, write_completion};
use etp_demo::write_demo;
use etp_io::{Shelf, Sink, Source, SureShelf, SureSink, SureSource};
use etp_serving::session;
use etp_tasks::{Search, list_laws, write_script, write_search};
use std::alloc::Global;

/// The most bytes of a source.
const LIMIT: u64 = 134_217_728;

/// Does what the words of the command line ask, and answers the status.
///
/// The word `session`, or no word, asks for a session with a limit of 134217728 bytes; `laws` and
/// `laws 5` ask for the list of the laws of at most four, or five, operations; `generate K N` for K
/// generated files of the seed N, K from 1 to 10000; `demo K N` for the summary of a ledger that took
/// these files and withdrew the first; `shortest E F LEAVES STEPS` for a shortest proof of law F from
/// law E over terms of at most LEAVES leaves, 1 to 6, in at most STEPS steps, 0 to 12; `complete N F
/// A B C` for a rule system, under the weight A B C, by which law N holds and law F fails.
/// With any other words the status is 2, and nothing is read or written.
pub fn run<S: Source, K: Sink, H: Shelf>(
    alloc: Global,
    words: &[String],
    source: &mut S,
    sink: &mut K,
    shelf: &mut H,
) -> u8
    ensures words { result ≡ 2 ↔ (task_of (map string_bytes words.now) ≡ Task.Unknown) }
    ensures untouched { result ≡ 2
        → (source.new ≡ source.old) × (sink.new ≡ sink.old) × (shelf.new ≡ shelf.old) }

    // A session: what each status says; at 0 and 1 (`well` and `refused`) the whole text was
    // written.
    ensures session { IsTask (map string_bytes words.now) Task.Session
        → SessionEnds (ledger_protocol (known 134217728 (H.keeps shelf.old)))
        (streams S.Source K.Sink H.Shelf source.old sink.old shelf.old)
        (streams S.Source K.Sink H.Shelf source.new sink.new shelf.new) result }
    ensures sessions { (result ≡ 1) ⊎ ((result ≡ 3) ⊎ (result ≡ 6))
        → IsTask (map string_bytes words.now) Task.Session }

    // The list of laws: at 0 all was written, at 4 and 5 a prefix, and nothing was read.
    ensures laws { (order : ListOrder) → IsTask (map string_bytes words.now) (Task.Laws order)
        → WritesLaws (operations_of order) (K.took sink.old) (K.took sink.new) result }

    // Generated files, the summary of a ledger that took them, the search for a shortest proof, and a
    // completion: at 0 the text was written, at 4 a prefix, at 5 nothing.
    ensures generate { (count seed : ℕ)
        → IsTask (map string_bytes words.now) (Task.Generate count seed)
        → WritesSome (IsScriptOf count seed) (K.took sink.old) (K.took sink.new) result }
    ensures demo { (count seed : ℕ)
        → IsTask (map string_bytes words.now) (Task.Demo count seed)
        → WritesSome (IsDemoOf count seed) (K.took sink.old) (K.took sink.new) result }
    ensures shortest { (e f leaves steps : ℕ)
        → IsTask (map string_bytes words.now) (Task.Shortest e f leaves steps)
        → WritesSome (IsSearchOf e f leaves steps) (K.took sink.old) (K.took sink.new) result }
    ensures complete { (law target a b c : ℕ)
        → IsTask (map string_bytes words.now) (Task.Complete law target a b c)
        → WritesSome (IsCompletionOf law target a b c) (K.took sink.old) (K.took sink.new) result }
    ensures unread { (IsTask (map string_bytes words.now) Task.Session → ⊥)
        → (source.new ≡ source.old) × (shelf.new ≡ shelf.old) }

    // Whatever the words ask: at 4 a write failed, and the shelf keeps what it did.
    ensures write { result ≡ 4 → Rose (K.faults sink.old) (K.faults sink.new) }
    ensures keeps { H.keeps shelf.new ≡ H.keeps shelf.old }
    ensures statuses { result ≤ 6 }
{
    match task_of(words) {
        Task::Session => session(alloc, LIMIT, source, sink, shelf),
        Task::Laws(order) => list_laws(alloc, order, sink),
        Task::Generate { count, seed } => write_script(alloc, count, seed, sink),
        Task::Demo { count, seed } => write_demo(alloc, count, seed, sink),
        Task::Shortest {
            hypothesis,
            goal,
            leaves,
            steps,
        } => {
            let search = Search {
                hypothesis,
                goal,
                leaves,
                steps,
            };
            write_search(alloc, search, sink)
        }
        Task::Complete {
            law,
            target,
            a,
            b,
            c,
        } => {
            let completion = Completion {
                law,
                target,
                a,
                b,
                c,
            };
            write_completion(alloc, completion, sink)
        }
        Task::Unknown => 2,
    }
}

/// Does what the words ask over forms in memory that never fail: a source of these bytes, a sink
/// that keeps nothing, and a shelf. The status is 0, 1 or 5; 1 only where the text of the bytes has
/// a refusal line, and 0 only where it has none.
pub fn run_in_memory(alloc: Global, words: &[String], bytes: Vec<u8>, shelf: &mut SureShelf) -> u8
    requires words { IsTask (map string_bytes words.now) Task.Session }
    requires within { vec_len bytes ≤ 134217728 }
    requires names_within { (name : List ℕ)
        → length (kept_or_empty shelf.old.entries.items name) ≤ 134217728 }
    ensures statuses { (result ≡ 0) ⊎ (result ≡ 1) ⊎ (result ≡ 5) }
    ensures well { result ≡ 0 → (text : List ℕ)
        × IsWholeSession (ledger_protocol (known 134217728
        (Some (λ name. Some (kept_or_empty shelf.old.entries.items name)))))
        bytes.items text false }
    ensures refused { result ≡ 1 → (text : List ℕ)
        × IsWholeSession (ledger_protocol (known 134217728
        (Some (λ name. Some (kept_or_empty shelf.old.entries.items name)))))
        bytes.items text true }
{
    let mut source = SureSource::of(bytes);
    let mut sink = SureSink;
    run(alloc, words, &mut source, &mut sink, shelf)
}
