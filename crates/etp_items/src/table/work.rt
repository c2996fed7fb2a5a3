// The table that lines make.
ghost use Rattle.std.specs.Prelude.{◌≡◌, IfOk, OnErr};
ghost use Rattle.etp_lines.specs.Said.{table_line_of};
ghost use Rattle.etp_items.specs.Work as Works;
ghost use Rattle.etp_items.specs.Work.{OpensTable, TakesInTable};

use etp_bits::Numbers;
use etp_lines::TableLine;
use etp_term::NoMemory;
use std::alloc::Global;

/// A table as far as its lines have been read.
#[derive(Drop)]
pub(crate) struct TableWork {
    pub size: u8,
    pub rows: u8,
    pub entries: Numbers,
}

impl TableWork {
    /// A table with its first line, which is to tell its size.
    pub(crate) fn open(alloc: Global, said: TableLine) -> Option<TableWork>
        ensures { OpensTable (table_line_of said) result }
    {
        match said {
            TableLine::Table(size) if size >= 1 => Some(TableWork {
                size: u8::try_from(size).ok()?,
                rows: 0,
                entries: Numbers::empty(alloc),
            }),
            _ => None,
        }
    }

    /// Takes what the next line says, where that may stand.
    pub(crate) fn take(&mut self, said: TableLine) -> Result<bool, NoMemory>
        ensures ok { IfOk result (TakesInTable self.old (table_line_of said) self.new) }
        ensures err { OnErr result (self.new ≡ self.old) }
    {
        let TableLine::Row(entries) = said else {
            return Ok(false);
        };
        if self.rows >= self.size || entries.len() != u32::from(self.size) {
            return Ok(false);
        }
        self.entries.append(entries.as_slice())?;
        self.rows += 1;
        Ok(true)
    }

    /// Whether all rows stand.
    pub(crate) fn has_all_rows(&self) -> bool
        ensures { result ≡ Works.has_all_rows self.now }
    {
        self.rows == self.size
    }
}
