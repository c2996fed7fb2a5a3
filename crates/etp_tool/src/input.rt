ghost use Rattle.std.specs.Prelude.{◌≡◌, None};

use etp_io::{Failed, Source};
use std::io::Read;

/// A source over a reader of the system. It tells nothing of content.
#[derive(Drop)]
pub struct InputSource<R: Read> {
    inner: R,
    faults: u64,
    given: u64,
    last: usize,
}

impl<R: Read> InputSource<R> {
    /// A source that has given nothing and never failed.
    pub fn new(inner: R) -> InputSource<R>
        ensures faults { result.faults ≡ 0 }
        ensures given { result.given ≡ 0 }
        ensures last { result.last ≡ 0 }
    {
        InputSource {
            inner,
            faults: 0,
            given: 0,
            last: 0,
        }
    }
}

impl<R: Read> Source for InputSource<R> {
    ghost left = { λ _. None };

    ghost faults = { λ s. s.faults };

    ghost given = { λ s. s.given };

    ghost last = { λ s. s.last };

    ghost gives = { λ _ _ _ _. Unit {0} };

    fn read(&mut self, buf: &mut [u8]) -> Result<usize, Failed> {
        match self.inner.read(buf) {
            Ok(count) => {
                self.given = self.given.saturating_add(count as u64);
                self.last = count;
                Ok(count)
            }
            Err(_) => {
                self.faults = self.faults.saturating_add(1);
                self.last = 0;
                Err(Failed)
            }
        }
    }
}

#[cfg(test)]
mod tests {
    use super::*;
    use std::io;

    // Gives three bytes, then fails, then ends.
    #[derive(Drop)]
    struct Script {
        calls: u32,
    }

    impl Read for Script {
        fn read(&mut self, buf: &mut [u8]) -> io::Result<usize> {
            self.calls = self.calls.saturating_add(1);
            if self.calls == 1 && buf.len() >= 3 {
                buf[..3].copy_from_slice(b"abc");
                return Ok(3);
            }
            if self.calls == 2 {
                return Err(io::Error::from(io::ErrorKind::Other));
            }
            Ok(0)
        }
    }

    #[test]
    fn a_failed_read_is_a_fault_and_gives_nothing(rt: HostRuntime) {
        let mut source = InputSource::new(Script { calls: 0 });
        let mut buf = [0; 8];
        assert!(rt; source.read(&mut buf) == Ok(3));
        assert!(rt; buf[..3] == b"abc"[..]);
        assert!(rt; source.read(&mut buf) == Err(Failed));
        assert!(rt; source.read(&mut buf) == Ok(0));
        assert!(rt; source.faults == 1 && source.given == 3 && source.last == 0);
    }
}
