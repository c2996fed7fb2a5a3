// Completions asked for and written.
ghost use Rattle.std.specs.Prelude.{◌≡◌, ◌≤◌, IfOk};
ghost use Rattle.etp_io.specs.Causes.{Rose};
ghost use Rattle.etp_tasks.specs.Writing.{WritesSome};
ghost use Rattle.etp_completing.specs.Completions.{IsCompletionOf};

use crate::text::append_completed;
use etp_complete::complete;
use etp_io::{Sink, write_all};
use etp_laws::Laws;
use etp_term::NoMemory;
use etp_text::Text;
use std::alloc::Global;

/// The question for a rule system by which the law of one number, of order 4, holds, and that of
/// another fails: law `law`, from 2 to 4694, completed under a weight, in no range yet.
#[derive(Clone, Copy)]
pub struct Completion {
    pub law: u32,
    pub target: u32,
    pub a: u32,
    pub b: u32,
    pub c: u32,
}

/// Writes what the completion comes to, and answers the status: 0 where all was written, 4 where a
/// write failed, 5 for want of memory.
pub fn write_completion<K: Sink>(alloc: Global, completion: Completion, sink: &mut K) -> u8
    requires law { (2 ≤ completion.law) × (completion.law ≤ 4694) }
    requires target { (1 ≤ completion.target) × (completion.target ≤ 4694) }
    ensures completion { WritesSome (IsCompletionOf completion.law completion.target
        completion.a completion.b completion.c) (K.took sink.old) (K.took sink.new) result }
    ensures write { result ≡ 4 → Rose (K.faults sink.old) (K.faults sink.new) }
{
    let Ok(text) = completed(alloc, completion) else {
        return 5;
    };
    match write_all(sink, text.as_slice()) {
        Ok(()) => 0,
        Err(_) => 4,
    }
}

// The text of what the completion comes to.
fn completed(alloc: Global, completion: Completion) -> Result<Text, NoMemory>
    requires law { (2 ≤ completion.law) × (completion.law ≤ 4694) }
    requires target { (1 ≤ completion.target) × (completion.target ≤ 4694) }
    ensures { IfOk result (IsCompletionOf completion.law completion.target
        completion.a completion.b completion.c) }
{
    let Completion {
        law,
        target,
        a,
        b,
        c,
    } = completion;
    let laws = Laws::build(alloc)?;
    let _count = laws.count();
    let completed = complete(alloc, &laws, law, target, [a, b, c])?;
    let mut text = Text::empty(alloc);
    append_completed(alloc, &mut text, target, completed)?;
    Ok(text)
}
