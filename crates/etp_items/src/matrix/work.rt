// The matrix-linear magma that lines make.
ghost use Rattle.std.specs.Prelude.{◌≡◌, ◌≤◌, IfOk, OnOk, OnErr};
ghost use Rattle.etp_lines.specs.MatrixLines as Lines;
ghost use Rattle.etp_lines.specs.MatrixLines.{has_all};
ghost use Rattle.etp_lines.specs.Said.{matrix_line_of};
ghost use Rattle.etp_items.specs.Work.{OpensMatrix, TakesInMatrix, matrix_place, with_entries};

use etp_bits::Numbers;
use etp_lines::MatrixLine;
use etp_matrix::Part;
use etp_term::NoMemory;
use std::alloc::Global;

/// A matrix-linear magma as far as its lines have been read.
#[derive(Drop)]
pub(crate) struct MatrixWork {
    pub modulus: u32,
    /// From 1 to 4.
    pub size: u8,
    pub rows: u16,
    pub a: Numbers,
    pub b: Numbers,
    pub c: Numbers,
}

impl MatrixWork {
    /// A magma with its first line, which is to tell its modulus and its size.
    pub(crate) fn open(alloc: Global, said: MatrixLine) -> Option<MatrixWork>
        ensures { OpensMatrix (matrix_line_of said) result }
    {
        match said {
            MatrixLine::Matrix(modulus, size) if size >= 1 && size <= 4 => Some(MatrixWork {
                modulus,
                size: size as u8,
                rows: 0,
                a: Numbers::empty(alloc),
                b: Numbers::empty(alloc),
                c: Numbers::empty(alloc),
            }),
            _ => None,
        }
    }

    /// Whether a row of the part is next.
    fn awaits(&self, part: Part) -> bool
        ensures { result ≡ Lines.awaits self.now.size self.now.rows part }
    {
        let size = u16::from(self.size);
        match part {
            Part::A => self.rows < size,
            Part::B => self.rows >= size && self.rows < size + size,
            Part::C => self.rows == size + size,
        }
    }

    /// Takes what the next line says, where that may stand.
    pub(crate) fn take(&mut self, said: MatrixLine) -> Result<bool, NoMemory>
        ensures ok { IfOk result (TakesInMatrix self.old (matrix_line_of said) self.new) }
        ensures err { OnErr result (self.new ≡ self.old) }
    {
        let MatrixLine::Row(part, entries) = said else {
            return Ok(false);
        };
        if !self.awaits(part) || entries.len() != u32::from(self.size) {
            return Ok(false);
        }
        self.append(part, entries.as_slice())?;
        self.rows += 1;
        Ok(true)
    }

    /// Appends the entries of a row to its part.
    fn append(&mut self, part: Part, entries: &[u32]) -> Result<(), NoMemory>
        ensures ok { OnOk result (self.new ≡ with_entries self.old part entries.now) }
        ensures err { OnErr result (self.new ≡ self.old) }
    {
        match part {
            Part::A => self.a.append(entries),
            Part::B => self.b.append(entries),
            Part::C => self.c.append(entries),
        }
    }

    /// Whether all rows stand.
    pub(crate) fn has_all_rows(&self) -> bool
        ensures { result ≡ has_all (matrix_place self.now) }
    {
        let size = u16::from(self.size);
        self.rows == size + size + 1
    }
}
