ghost use Rattle.std.specs.Prelude.{◌≡◌, ◌≤◌, None, length, IfOk};

use crate::name::ShelfName;
use etp_io::{Failed, Shelf};
use std::fs::File;
use std::io::{Read, Seek, SeekFrom};
use std::rt::Files;
use std::{io, str};

/// The files of the working folder. It tells nothing of content.
///
/// A name has letters, digits, `.`, `_` and `-` alone and begins with a letter or a digit, so that
/// it can't leave the folder; any other name is a fault. A file is opened anew where it is read from
/// its start, and stays open for the reads that follow.
#[derive(Drop)]
pub struct FolderShelf<'a, R: Files> {
    files: &'a R,
    opened: Option<R::File>,
    name: ShelfName,
    place: u64,
    faults: u64,
    given: u64,
    failed: ShelfName,
}

impl<'a, R: Files> FolderShelf<'a, R> {
    /// The shelf of the folder that the program runs in, with no file opened.
    pub fn new(files: &'a R) -> FolderShelf<'a, R>
        ensures faults { result.faults ≡ 0 }
        ensures given { result.given ≡ 0 }
    {
        FolderShelf {
            files,
            opened: None,
            name: ShelfName::none(),
            place: 0,
            faults: 0,
            given: 0,
            failed: ShelfName::none(),
        }
    }

    // Opens the file of this name, where the read is from its start or another file is open.
    fn open(&mut self, name: &[u8], at: u64) -> io::Result<()>
        requires { length name.now ≤ 64 }
        ensures faults { self.new.faults ≡ self.old.faults }
        ensures given { self.new.given ≡ self.old.given }
        ensures failed { self.new.failed ≡ self.old.failed }
    {
        if at != 0 && self.opened.is_some() && self.name.is(name) {
            return Ok(());
        }
        self.opened = None;
        let Ok(path) = str::from_utf8(name) else {
            return Err(io::Error::from(io::ErrorKind::InvalidInput));
        };
        if !is_name(name) {
            return Err(io::Error::from(io::ErrorKind::InvalidInput));
        }
        self.opened = Some(File::open(self.files, path)?);
        self.place = 0;
        self.name = ShelfName::of(name);
        Ok(())
    }

    fn read(&mut self, name: &[u8], at: u64, buf: &mut [u8]) -> io::Result<usize>
        requires { length name.now ≤ 64 }
        ensures bound { IfOk result (λ n. n ≤ length buf.new) }
        ensures faults { self.new.faults ≡ self.old.faults }
        ensures given { self.new.given ≡ self.old.given }
        ensures failed { self.new.failed ≡ self.old.failed }
    {
        self.open(name, at)?;
        let Some(file) = &mut self.opened else {
            return Err(io::Error::from(io::ErrorKind::NotFound));
        };
        if self.place != at {
            file.seek(SeekFrom::Start(at))?;
            self.place = at;
        }
        let count = file.read(buf)?;
        self.place = self.place.saturating_add(count as u64);
        Ok(count)
    }
}

// Whether these bytes are a name of a file in the folder.
fn is_name(name: &[u8]) -> bool {
    match name {
        [first, ..] => first.is_ascii_alphanumeric()
            && name.iter().all(|b| b.is_ascii_alphanumeric()
                || *b == b'.'
                || *b == b'_'
                || *b == b'-'),
        [] => false,
    }
}

impl<'a, R: Files> Shelf for FolderShelf<'a, R> {
    ghost keeps = { λ _. None };

    ghost faults = { λ s. s.faults };

    ghost given = { λ s. s.given };

    ghost failed_name = { λ s. s.failed };

    ghost gives = { λ _ _ _ _ _ _. Unit {0} };

    fn read_at(&mut self, name: &[u8], at: u64, buf: &mut [u8]) -> Result<usize, Failed> {
        match self.read(name, at, buf) {
            Ok(count) => {
                self.given = self.given.saturating_add(count as u64);
                Ok(count)
            }
            Err(_) => {
                self.faults = self.faults.saturating_add(1);
                self.failed = ShelfName::of(name);
                Err(Failed)
            }
        }
    }
}

#[cfg(test)]
mod tests {
    use super::*;
    use std::fs;

    #[test]
    fn a_file_of_the_folder_is_read_and_others_are_faults(rt: HostRuntime) {
        fs::write(&rt, "shelf-test", "abcdef").expect(&rt, "a file");
        let mut shelf = FolderShelf::new(&rt);
        let mut buf = [0; 4];
        assert!(rt; shelf.read_at(b"shelf-test", 0, &mut buf) == Ok(4));
        assert!(rt; buf == *b"abcd");
        assert!(rt; shelf.read_at(b"shelf-test", 4, &mut buf) == Ok(2));
        assert!(rt; shelf.read_at(b"shelf-test", 6, &mut buf) == Ok(0));
        assert!(rt; shelf.read_at(b"shelf-test", 1, &mut buf) == Ok(4));
        assert!(rt; buf == *b"bcde");
        assert!(rt; shelf.read_at(b"none", 0, &mut buf) == Err(Failed));
        assert!(rt; shelf.read_at(b"../shelf-test", 0, &mut buf) == Err(Failed));
        assert!(rt; shelf.faults == 2 && shelf.given == 10 && shelf.failed.is(b"../shelf-test"));
    }

    #[test]
    fn a_file_is_opened_anew_where_it_is_read_from_its_start(rt: HostRuntime) {
        fs::write(&rt, "shelf-anew", "before").expect(&rt, "a file");
        let mut shelf = FolderShelf::new(&rt);
        let mut buf = [0; 8];
        assert!(rt; shelf.read_at(b"shelf-anew", 0, &mut buf) == Ok(6));
        fs::write(&rt, "shelf-next", "then").expect(&rt, "a file");
        fs::rename(&rt, "shelf-next", "shelf-anew").expect(&rt, "another file of the name");
        assert!(rt; shelf.read_at(b"shelf-anew", 6, &mut buf) == Ok(0));
        assert!(rt; shelf.read_at(b"shelf-anew", 0, &mut buf) == Ok(4));
        assert!(rt; buf[..4] == b"then"[..]);
        fs::remove_file(&rt, "shelf-anew").expect(&rt, "no file of the name");
        assert!(rt; shelf.read_at(b"shelf-anew", 0, &mut buf) == Err(Failed));
        assert!(rt; shelf.faults == 1 && shelf.given == 10 && shelf.failed.is(b"shelf-anew"));
    }
}
