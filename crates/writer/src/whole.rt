// A whole file written in one call.
ghost use Rattle.std.specs.Prelude.{◌≡◌, ℕ, ◌+◌, ◌-◌, ◌*◌, List, map, is_some, length, if◌then◌else◌, Some, None, MatchResult, nat_le};
ghost use Rattle.writer.specs.Drafts.{FileDraft, bound, drafted, opened, refusal_in};
ghost use Rattle.writer.specs.Open.{FileStands, buffer_of};
ghost use Rattle.writer.specs.Stands.{Done};
ghost use Rattle.writer.specs.Whole.{all_of, all_written, batch_bytes, batch_of, batch_put, each_of, file_of, rises_from, whole_check};

use crate::batch_rows::BatchRows;
use crate::checks::{is_lawful, room_in};
use crate::states::{FileOpen, Finished};
use crate::written::{BATCH_HEAD_BYTES, END_BYTES, FILE_HEAD_BYTES, ROW_BYTES};
use memberfile::header::Header;
use terms::file_kind::FileKind;
use terms::refusal::Refusal;
use wire::row::Row;

// Whether the numbers of the batches rise from at least 1.
fn numbers_rise(batches: &[BatchRows]) -> bool
    ensures { result ≡ rises_from 0 (map batch_of batches.now) }
{
    // A loop, since the first number is held against 0 and each other one against the number before it: a chain would say that in two tests.
    let mut last = 0;
    for batch in batches {
        if batch.number <= last {
            return false;
        }
        last = batch.number;
    }
    true
}

// Whether each row is of a file of that kind.
fn rows_are_of(kind: FileKind, rows: &[Row]) -> bool
    ensures { result ≡ all_of kind rows.now }
{
    rows.iter().all(|row| row.is_of(kind))
}

// Whether each row of each batch is.
fn batches_are_of(kind: FileKind, batches: &[BatchRows]) -> bool
    ensures { result ≡ each_of kind (map batch_of batches.now) }
{
    batches.iter().all(|batch| rows_are_of(kind, batch.rows))
}

// How many of the bytes left a batch of so many rows leaves, if it fits.
fn left_behind(left: usize, rows: usize) -> Option<usize>
    ensures { result ≡ (if nat_le (33 + rows * 16) left then Some (left - (33 + rows * 16)) else None) }
{
    let left = left.checked_sub(BATCH_HEAD_BYTES + END_BYTES)?;
    left.checked_sub(rows.checked_mul(ROW_BYTES)?)
}

// How many bytes of the room header, batches and file end leave, if they fit.
fn bytes_left(room: usize, batches: &[BatchRows]) -> Option<usize>
    ensures { is_some result ≡ nat_le (40 + batch_bytes (map batch_of batches.now)) room }
{
    let mut left = room.checked_sub(FILE_HEAD_BYTES + END_BYTES)?;
    for batch in batches {
        left = left_behind(left, batch.rows.len())?;
    }
    Some(left)
}

// Whether a whole file can be written into a buffer of so many bytes.
fn check_whole(buffer_bytes: usize, header: Header, batches: &[BatchRows]) -> Result<(), Refusal>
    ensures { refusal_in result ≡ whole_check (bound buffer_bytes) (file_of header batches.now) }
{
    if !is_lawful(header) || !numbers_rise(batches) {
        return Err(Refusal::WriterValue);
    }
    bytes_left(room_in(buffer_bytes), batches).ok_or(Refusal::WriterSpace)?;
    if !batches_are_of(header.kind, batches) {
        return Err(Refusal::WriterKind);
    }
    Ok(())
}

// Opens a batch, puts its rows and closes it; a row that is refused is left out.
fn write_batch<'b>(file: FileOpen<'b>, batch: &BatchRows) -> FileOpen<'b>
    ensures name { (buffer_of result).ghost_name ≡ (buffer_of file.entry).ghost_name }
    ensures stands { (d : FileDraft) (old : List ℕ) → FileStands d old file.entry → FileStands (batch_put (bound (length old)) d (batch_of batch.now)) old result }
{
    let mut open = file.open_batch(batch.number);
    for row in batch.rows {
        let _ = open.put(*row);
    }
    open.close()
}

// Opens a file over the buffer, writes the batches one after another and finishes it.
fn write_batches<'b>(header: Header, batches: &[BatchRows], out: &'b mut [u8]) -> Finished<'b>
    ensures name { result.bytes.ghost_name ≡ out.entry.ghost_name }
    ensures done { let room = bound (length out.old) in Done (all_written room (opened room header) (map batch_of batches.now)) out.old result.bytes.now result.len }
{
    let mut file = FileOpen::open(out, header);
    for batch in batches {
        file = write_batch(file, batch);
    }
    file.finish()
}

// Writes the file with that header and those batches at the front of the buffer and gives its length; refused, it moves nothing.
pub fn write_file(header: Header, batches: &[BatchRows], out: &mut [u8]) -> Result<usize, Refusal>
    ensures answer { refusal_in result ≡ whole_check (bound (length out.old)) (file_of header batches.now) }
    ensures written { MatchResult result (λ n. Done (drafted (file_of header batches.now)) out.old out.new n) (λ _. out.new ≡ out.old) }
{
    check_whole(out.len(), header, batches)?;
    let finished = write_batches(header, batches, out);
    Ok(finished.len)
}
