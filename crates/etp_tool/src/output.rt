ghost use Rattle.std.specs.Prelude.{◌≡◌, None, IfSome, length, ◌<◌, ◌≤◌};

use etp_io::{Failed, Sink};
use std::io::Write;

/// A sink over a writer of the system, each piece written and flushed. It tells nothing of content.
#[derive(Drop)]
pub struct OutputSink<W: Write> {
    inner: W,
    faults: u64,
}

impl<W: Write> OutputSink<W> {
    /// A sink that never failed.
    pub fn new(inner: W) -> OutputSink<W>
        ensures { result.faults ≡ 0 }
    {
        OutputSink { inner, faults: 0 }
    }
}

impl<W: Write> Sink for OutputSink<W> {
    ghost took = { λ _. None };

    ghost faults = { λ s. s.faults };

    fn write(&mut self, piece: &[u8]) -> Result<usize, Failed> {
        match write_some(&mut self.inner, piece) {
            Some(count) => Ok(count),
            None => {
                self.faults = self.faults.saturating_add(1);
                Err(Failed)
            }
        }
    }
}

// Writes and flushes at least one byte.
fn write_some<W: Write>(inner: &mut W, piece: &[u8]) -> Option<usize>
    ensures { IfSome result (λ n. (0 < n) × (n ≤ length piece.now)) }
{
    let count = inner.write(piece).ok()?;
    inner.flush().ok()?;
    if count == 0 { None } else { Some(count) }
}

#[cfg(test)]
mod tests {
    use super::*;
    use etp_io::write_all;
    use std::io;

    // Takes two bytes a call, and nothing from the fourth call on.
    #[derive(Drop)]
    struct Narrow {
        calls: u32,
        flushes: u32,
    }

    impl Write for Narrow {
        fn write(&mut self, buf: &[u8]) -> io::Result<usize> {
            self.calls = self.calls.saturating_add(1);
            if self.calls > 3 {
                Ok(0)
            } else {
                Ok(buf.len().min(2))
            }
        }

        fn flush(&mut self) -> io::Result<()> {
            self.flushes = self.flushes.saturating_add(1);
            Ok(())
        }
    }

    #[test]
    fn a_writer_that_takes_nothing_is_a_fault(rt: HostRuntime) {
        let mut sink = OutputSink::new(Narrow {
            calls: 0,
            flushes: 0,
        });
        assert!(rt; write_all(&mut sink, b"abcde") == Ok(()));
        assert!(rt; sink.inner.calls == 3 && sink.inner.flushes == 3 && sink.faults == 0);
        assert!(rt; write_all(&mut sink, b"f") == Err(Failed));
        assert!(rt; sink.faults == 1);
    }
}
