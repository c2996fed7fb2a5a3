// Generated files.
ghost use Rattle.std.specs.Prelude.{◌≡◌, IfOk};
ghost use Rattle.etp_io.specs.Causes.{Rose};
ghost use Rattle.etp_tasks.specs.Scripts.{IsScriptOf};
ghost use Rattle.etp_tasks.specs.Writing.{WritesSome};

use etp_gen::generate;
use etp_io::{Sink, write_all};
use etp_laws::Laws;
use etp_term::NoMemory;
use etp_text::Text;
use std::alloc::Global;

/// Writes the script of so many generated files, and answers the status: 0 where all was written, 4
/// where a write failed, 5 for want of memory.
pub fn write_script<K: Sink>(alloc: Global, count: u32, seed: u32, sink: &mut K) -> u8
    ensures script { WritesSome (IsScriptOf count seed)
        (K.took sink.old) (K.took sink.new) result }
    ensures write { result ≡ 4 → Rose (K.faults sink.old) (K.faults sink.new) }
{
    let Ok(text) = script(alloc, count, seed) else {
        return 5;
    };
    match write_all(sink, text.as_slice()) {
        Ok(()) => 0,
        Err(_) => 4,
    }
}

fn script(alloc: Global, count: u32, seed: u32) -> Result<Text, NoMemory>
    ensures { IfOk result (IsScriptOf count seed) }
{
    let laws = Laws::build(alloc)?;
    generate(alloc, &laws, count, seed)
}
