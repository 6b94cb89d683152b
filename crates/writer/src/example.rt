// The example of one transfer, from member 2 to member 7 with 500 céntimos: a file of 89 bytes.
ghost use Rattle.std.specs.Prelude.{◌≡◌, ◌≤◌, length};
ghost use Rattle.exactness.specs.Example.{example_bytes, example_file};
ghost use Rattle.writer.specs.Drafts.{bound, drafted};
ghost use Rattle.writer.specs.Example.{example_draft};
ghost use Rattle.writer.specs.Stands.{Done};

use crate::batch_rows::BatchRows;
use crate::states::{FileOpen, Finished};
use crate::whole::write_file;
use memberfile::header::Header;
use terms::currency::Currency;
use terms::cycle::Cycle;
use terms::file_kind::FileKind;
use wire::row::Row;
use wire::values::Presentation;

const EXAMPLE_BYTES: usize = 89;

const HEADER: Header = Header {
    kind: FileKind::Presentations,
    currency: Currency::Soles,
    cycle: Cycle::Morning,
    origin: 2,
    date: 20240305,
    number: 1,
};

const TRANSFER: Row = Row::Presentation(Presentation {
    record_type: 220,
    other: 7,
    reference: 1,
    amount: 500,
    commission: 0,
});

// The bytes of the example, written in one call.
pub fn example_bytes() -> [u8; EXAMPLE_BYTES]
    ensures { result ≡ example_bytes }
{
    let rows = [TRANSFER];
    let batches = [BatchRows {
        number: 1,
        rows: &rows,
    }];
    let mut bytes = [0; EXAMPLE_BYTES];
    let _ = write_file(HEADER, &batches, &mut bytes);
    bytes
}

// The example written record by record: whole where the buffer has the space, else as far as the writer takes it.
pub fn put_example<'b>(out: &'b mut [u8]) -> Finished<'b>
    ensures done { Done (example_draft (bound (length out.old))) out.old result.bytes.now result.len }
    ensures whole { 89 ≤ length out.old → Done (drafted example_file) out.old result.bytes.now result.len }
{
    let mut batch = FileOpen::open(out, HEADER).open_batch(1);
    let _ = batch.put(TRANSFER);
    batch.close().finish()
}
