ghost use Rattle.std.specs.Prelude.{◌≡◌, ◌≤◌, ◌<◌, ℕ, List, length, IfOk, OnOk, OnErr, IfSome};
ghost use Rattle.std.specs.declared.option.Option.{Option};
ghost use Rattle.std.specs.declared.result.Result.{Result};
ghost use Rattle.std.specs.Io.KnownBytes.{ReadConsumes, WriteAppends, Appends};
ghost use Rattle.etp_io.specs.declared.outside.Failed.{Failed};
ghost use Rattle.etp_io.specs.Causes.{HasCause};
ghost use Rattle.etp_io.specs.Counts.{RisesBy, count_of};
ghost use Rattle.etp_io.specs.Stream.{AppendsPrefix};
ghost use Rattle.etp_io.specs.Shelves.{KeepsAt};

/// The outside failed; its count of faults says so too.
#[derive(Clone, Copy, Debug, PartialEq, Eq)]
pub struct Failed;

/// A stream of bytes to read.
///
/// Counts stand still at 18446744073709551615, their last value.
pub trait Source {
    // what is left, where the source tells it
    ghost left: { Self → Option (List ℕ) };
    // how often it failed
    ghost faults: { Self → ℕ };
    // how many bytes its calls gave
    ghost given: { Self → ℕ };
    // how many bytes its last call gave, none where it failed
    ghost last: { Self → ℕ };
    // what a call with a buffer of so many bytes may answer, and what the source is then
    ghost gives: { Self → ℕ → Result ℕ Failed → Self → Type 0 };

    /// Puts the next bytes at the front of the buffer and answers how many; none says that nothing is left.
    fn read(&mut self, buf: &mut [u8]) -> Result<usize, Failed>
        requires { 0 < length buf.old }
        ensures bound { IfOk result (λ n. n ≤ length buf.new) }
        ensures bytes { ReadConsumes (left self.old) (left self.new) result buf.new }
        ensures cause { HasCause (faults self.old) (faults self.new) result }
        ensures counted { RisesBy (given self.old) (given self.new) (count_of result) }
        ensures last_count { last self.new ≡ count_of result }
        ensures gives { gives self.old (length buf.old) result self.new };
}

/// A stream of bytes to write.
///
/// The count of faults stands still at 18446744073709551615, its last value.
pub trait Sink {
    // what it took, where it tells
    ghost took: { Self → Option (List ℕ) };
    // how often it failed
    ghost faults: { Self → ℕ };

    /// Appends bytes of the front of the piece, at least one, and answers how many.
    fn write(&mut self, piece: &[u8]) -> Result<usize, Failed>
        requires { 0 < length piece.now }
        ensures bound { IfOk result (λ n. (0 < n) × (n ≤ length piece.now)) }
        ensures bytes { WriteAppends (took self.old) (took self.new) result piece.now }
        ensures cause { HasCause (faults self.old) (faults self.new) result };
}

/// Named bytes to read.
///
/// Counts stand still at 18446744073709551615, their last value.
pub trait Shelf {
    // the bytes of each name that is there, where the shelf tells them
    ghost keeps: { Self → Option (List ℕ → Option (List ℕ)) };
    // how often it failed
    ghost faults: { Self → ℕ };
    // how many bytes its calls gave
    ghost given: { Self → ℕ };
    // the name that failed last
    ghost failed_name: { Self → List ℕ };
    // what a call with a name, a place and a buffer of so many bytes may answer, and what the shelf is then
    ghost gives: { Self → List ℕ → ℕ → ℕ → Result ℕ Failed → Self → Type 0 };

    /// Puts bytes of the name, from the place `at` on, at the front of the buffer and answers how many;
    /// none says that the place is at the end or past it. A name that isn't there is a fault.
    fn read_at(&mut self, name: &[u8], at: u64, buf: &mut [u8]) -> Result<usize, Failed>
        requires some { 0 < length buf.old }
        requires name { (0 < length name.now) × (length name.now ≤ 64) }
        requires place { at ≤ 134217728 }
        ensures bound { IfOk result (λ n. n ≤ length buf.new) }
        ensures bytes { IfSome (keeps self.old) (λ kept. IfOk result (λ n. KeepsAt (kept name.now) at n buf.new)) }
        ensures same { keeps self.new ≡ keeps self.old }
        ensures cause { HasCause (faults self.old) (faults self.new) result }
        ensures counted { RisesBy (given self.old) (given self.new) (count_of result) }
        ensures failed { OnErr result (failed_name self.new ≡ name.now) }
        ensures not_failed { OnOk result (failed_name self.new ≡ failed_name self.old) }
        ensures gives { gives self.old name.now at (length buf.old) result self.new };
}

/// Appends all bytes. On `Err` a front of them was appended.
pub fn write_all<K: Sink>(sink: &mut K, bytes: &[u8]) -> Result<(), Failed>
    ensures ok { OnOk result (Appends (K.took sink.old) (K.took sink.new) bytes.now) }
    ensures err { OnErr result (AppendsPrefix (K.took sink.old) (K.took sink.new) bytes.now) }
    ensures cause { HasCause (K.faults sink.old) (K.faults sink.new) result }
{
    let mut at = 0;
    while at < bytes.len() {
        match sink.write(&bytes[at..]) {
            Ok(count) => at += count,
            Err(failed) => return Err(failed),
        }
    }
    Ok(())
}
