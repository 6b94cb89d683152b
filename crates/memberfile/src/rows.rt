// The rows of a file, one after another, over its bytes: a second walk that needs no memory of its own.
ghost use Rattle.std.specs.Prelude.{◌≡◌, ℕ, ◌+◌, ◌≤◌, length};
ghost use Rattle.memberfile.specs.Walk.{Parted, row_of, rows_in};
ghost use Rattle.wire.specs.Records.{Sized, said};
ghost use Rattle.std.specs.Iterator.{at_most};

use wire::reader::walk::first_record;
use wire::record::Record;
use wire::row::Row;
use wire::values::{presentation_in, return_in};

// The row that a record is.
fn row_of(met: Record) -> Option<Row>
    requires { Sized (said met) }
    ensures { result ≡ row_of (said met.entry) }
{
    match met {
        Record::Presentation(v) => Some(Row::Presentation(presentation_in(v))),
        Record::Return(v) => Some(Row::Return(return_in(v))),
        _ => None,
    }
}

#[derive(Clone, Copy)]
pub struct Rows<'a> {
    rest: &'a [u8],
}

impl<'a> Rows<'a> {
    ghost use Rattle.memberfile.specs.Rows.{bytes_left};

    // The rows in the bytes.
    pub fn new(bytes: &'a [u8]) -> Rows<'a>
        ensures { bytes_left result ≡ bytes.now }
    {
        Rows { rest: bytes }
    }
}

impl<'a> Iterator for Rows<'a> {
    ghost use Rattle.memberfile.specs.Rows.{bytes_left};

    type Item = Row;

    ghost next_gives = { λ s r t. Parted r (rows_in (bytes_left s)) (rows_in (bytes_left t)) };

    ghost remaining = { λ s. at_most (length (rows_in (bytes_left s))) };

    // What is no row is passed over.
    fn next(&mut self) -> Option<Row> {
        while let Ok(met) = first_record(self.rest) {
            self.rest = &self.rest[met.encoded_len()..];
            if let Some(row) = row_of(met) {
                return Some(row);
            }
        }
        None
    }
}
