ghost use Rattle.std.specs.Prelude.{◌≡◌, ◌≤◌, ◌↔◌, map, IfOk};
ghost use Rattle.std.specs.String.{string_bytes};
ghost use Rattle.etp_io.specs.Causes.{Rose};
ghost use Rattle.etp_arguments.specs.Arguments.{task_of};
ghost use Rattle.etp_arguments.specs.declared.task.Task.TheVariants.{Unknown};

use etp_io::{Shelf, Sink, Source};
use etp_session::run;
use std::alloc::Global;
use std::env::{self, Env};
use std::io;

/// Does what the words of the command line ask, and answers the status.
pub fn run_words<R: Env + AllocGlobal, S: Source, K: Sink, H: Shelf>(
    rt: &R,
    source: &mut S,
    sink: &mut K,
    shelf: &mut H,
) -> u8
    ensures write { result ≡ 4 → Rose (K.faults sink.old) (K.faults sink.new) }
    ensures keeps { H.keeps shelf.new ≡ H.keeps shelf.old }
    ensures statuses { result ≤ 7 }
{
    status_of(rt.alloc(), arguments(rt), source, sink, shelf)
}

// The words of the command line, without the program's name.
fn arguments<R: Env + AllocGlobal>(rt: &R) -> io::Result<Vec<String>> {
    let mut words = Vec::new(rt.alloc());
    for word in env::args(rt)?.skip(1) {
        words.push(word)?;
    }
    Ok(words)
}

// The status of `run` for these words, 5 where memory for them was wanting, and 7 where one is no text.
fn status_of<S: Source, K: Sink, H: Shelf>(
    alloc: Global,
    words: io::Result<Vec<String>>,
    source: &mut S,
    sink: &mut K,
    shelf: &mut H,
) -> u8
    ensures words { IfOk words
        (λ words. result ≡ 2 ↔ (task_of (map string_bytes words.items) ≡ Unknown)) }
    ensures write { result ≡ 4 → Rose (K.faults sink.old) (K.faults sink.new) }
    ensures keeps { H.keeps shelf.new ≡ H.keeps shelf.old }
    ensures statuses { result ≤ 7 }
{
    match words {
        Ok(words) => run(alloc, words.as_slice(), source, sink, shelf),
        Err(error) if error.kind() == io::ErrorKind::OutOfMemory => 5,
        Err(_) => 7,
    }
}

#[cfg(test)]
mod tests {
    use super::*;
    use etp_io::{MemoryShelf, MemorySink, MemorySource};
    use std::alloc::AllocError;
    use std::env::FillError;

    // The words of a command line, the program's name first.
    #[derive(Drop)]
    struct Line<'a> {
        words: &'a [&'a [u8]],
    }

    impl<'a> Env for Line<'a> {
        fn arg(&self, i: usize, buf: &mut [u8]) -> Result<usize, FillError> {
            let Some(word) = self.words.get(i) else {
                return Err(FillError::NotPresent);
            };
            let Some(front) = buf.get_mut(..word.len()) else {
                return Err(FillError::TooLong);
            };
            front.copy_from_slice(word);
            Ok(word.len())
        }

        fn var(&self, _name: &str, _buf: &mut [u8]) -> Result<usize, FillError> {
            Err(FillError::NotPresent)
        }

        fn var_at(&self, _i: usize, _buf: &mut [u8]) -> Result<usize, FillError> {
            Err(FillError::NotPresent)
        }
    }

    // The status and the text for these words over one line of input.
    fn ran(alloc: Global, words: &[&[u8]]) -> Result<(u8, MemorySink), AllocError> {
        let input = Vec::from_slice(alloc, b"law 3\n")?;
        let mut source = MemorySource::of(input, 4096, Vec::new(alloc));
        let mut sink = MemorySink::of(alloc, 1000, 4096, Vec::new(alloc))?;
        let mut shelf = MemoryShelf::of(alloc, 4096, Vec::new(alloc));
        let status = run_words(&(Line { words }, alloc), &mut source, &mut sink, &mut shelf);
        Ok((status, sink))
    }

    #[test]
    fn the_words_of_the_command_line_are_handed_on(rt: HostRuntime) {
        let text = "3 x = x ◇ x\n".as_bytes();
        let none = b"".as_slice();
        let cases: [(&[&[u8]], u8, &[u8]); 5] = [
            (&[b"etp_tool"], 0, text),
            (&[b"etp_tool", b"session"], 0, text),
            (&[b"etp_tool", b"session", b"session"], 2, none),
            (&[b"etp_tool", b"sessions"], 2, none),
            (&[b"etp_tool", b"\xff"], 7, none),
        ];
        for (words, status, text) in cases {
            let (answer, sink) = ran(rt.alloc(), words).expect(&rt, "memory");
            assert!(rt; answer == status && sink.taken() == text);
        }
    }
}
