//! The part of a table that its workers share, and the files that they install.
ghost use Rattle.std.specs.Prelude.{◌≡◌};
ghost use Rattle.fx_server.specs.Words.{number_of_mark};
ghost use Rattle.fx_server.specs.Files.{file_with};

use fx_base::{Mark, OpenFile};
use fx_lasting::LastingTable;

/// The table. It ends when it is dropped.
pub struct Shared {
    pub table: LastingTable,
}

impl Drop for Shared {
    fn drop(self) {
        let Shared { table } = self;
        table.abandon();
    }
}

/// Opens a file with this tag, and with this number in its mark.
#[inline(always)]
pub(crate) fn file_with(tag: u64, number: u64) -> OpenFile
    ensures file { result ≡ file_with tag number }
    ensures number { number_of_mark result.mark ≡ number }
{
    let k = (number / (1 << 32)) as u32;
    let i = (number % (1 << 32)) as u32;
    OpenFile::new(Mark::Registered { k, i }, 0, tag)
}
