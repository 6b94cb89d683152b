// The writer's states, each the only way to the next: a file open, a batch open, the file open again, and finished.
ghost use Rattle.std.specs.Prelude.{◌≡◌, ℕ, List, length, OnErr};
ghost use Rattle.writer.specs.Drafts.{BatchDraft, FileDraft, batch_check, bound, closed, extended, file_check, opened, put_check, refusal_in, started};
ghost use Rattle.writer.specs.Open.{BatchStands, FileStands, IsUnmoved, batch_buffer_of, buffer_of, number_check, row_check};
ghost use Rattle.writer.specs.Stands.{Done};

use crate::checks::{is_end_due, is_lawful, room_in};
use crate::records::{write_batch_head, write_end, write_file_head, write_row};
use crate::written::{BATCH_HEAD_BYTES, END_BYTES, FILE_HEAD_BYTES, ROW_BYTES, Written};
use memberfile::header::Header;
use pen::pen::Pen;
use terms::refusal::Refusal;
use wire::record::Tag;
use wire::row::Row;

// A file to which batches may be added. Not `Drop`: it can only be finished.
pub struct FileOpen<'b> {
    out: &'b mut [u8],
    written: Written,
}

// A batch to which rows may be added. Not `Drop`: it can only be closed.
pub struct BatchOpen<'b> {
    out: &'b mut [u8],
    written: Written,
    // The refusal that the batch was opened against, if any.
    refused: Option<Refusal>,
}

// A file that is finished: its first `len` bytes are the file, and the rest of the buffer is as it was.
#[derive(Drop)]
pub struct Finished<'b> {
    pub bytes: &'b mut [u8],
    pub len: usize,
}

// Whether a file with that header can be opened over the buffer; it moves nothing.
pub fn check_file(out: &[u8], header: Header) -> Result<(), Refusal>
    ensures { refusal_in result ≡ file_check (bound (length out.now)) header }
{
    if !is_lawful(header) {
        return Err(Refusal::WriterValue);
    }
    if room_in(out.len()) < FILE_HEAD_BYTES + END_BYTES {
        return Err(Refusal::WriterSpace);
    }
    Ok(())
}

impl<'b> FileOpen<'b> {
    // Opens a file over the buffer; against its check nothing is written, and the file answers that refusal from then on.
    pub fn open(out: &'b mut [u8], header: Header) -> FileOpen<'b>
        ensures name { (buffer_of result).ghost_name ≡ out.entry.ghost_name }
        ensures stands { FileStands (opened (bound (length out.old)) header) out.old result }
    {
        if let Err(refusal) = check_file(out, header) {
            let written = Written::refused(header.kind, refusal);
            return FileOpen { out, written };
        }
        write_file_head(&mut Pen { out, at: 0 }, header);
        let written = Written::begun(header.kind);
        FileOpen { out, written }
    }

    // Whether a batch of that number can be opened; it moves nothing.
    pub fn check_batch(&self, number: u16) -> Result<(), Refusal>
        ensures answer { (d : FileDraft) (old : List ℕ) → FileStands d old self.now → refusal_in result ≡ batch_check (bound (length old)) d number }
        ensures sofar { refusal_in result ≡ number_check self.now number }
    {
        let sofar = self.written.sofar;
        if let Some(refusal) = sofar.refused {
            return Err(refusal);
        }
        if number <= sofar.last {
            return Err(Refusal::WriterValue);
        }
        if room_in(self.out.len()) < sofar.len + (BATCH_HEAD_BYTES + END_BYTES + END_BYTES) {
            return Err(Refusal::WriterSpace);
        }
        Ok(())
    }

    // Opens a batch; against its check nothing is written, and the batch answers that refusal to every put.
    pub fn open_batch(self, number: u16) -> BatchOpen<'b>
        ensures name { (batch_buffer_of result).ghost_name ≡ (buffer_of self.entry).ghost_name }
        ensures stands { (d : FileDraft) (old : List ℕ) → FileStands d old self.entry → BatchStands (started (bound (length old)) d number) old result }
    {
        let refused = self.check_batch(number).err();
        let FileOpen { out, written } = self;
        if refused.is_some() {
            return BatchOpen {
                out,
                written,
                refused,
            };
        }
        let sofar = written.sofar;
        write_batch_head(&mut Pen { out, at: sofar.len }, sofar.kind, number);
        BatchOpen {
            out,
            written: written.with_batch(number),
            refused: None,
        }
    }

    // Writes the file end and gives the buffer back; a file opened against its check has length 0.
    pub fn finish(self) -> Finished<'b>
        ensures name { result.bytes.ghost_name ≡ (buffer_of self.entry).ghost_name }
        ensures done { (d : FileDraft) (old : List ℕ) → FileStands d old self.entry → Done d old result.bytes.now result.len }
    {
        let FileOpen { out, written } = self;
        let sofar = written.sofar;
        if !is_end_due(sofar.refused, out.len(), sofar.len) {
            return Finished {
                bytes: out,
                len: sofar.len,
            };
        }
        let mut pen = Pen { out, at: sofar.len };
        write_end(&mut pen, Tag::FileEnd, sofar.batches, sofar.totals);
        Finished {
            bytes: out,
            len: sofar.len + END_BYTES,
        }
    }
}

impl<'b> BatchOpen<'b> {
    // Whether a row can be put; it moves nothing.
    fn check_row(&self, row: Row) -> Result<(), Refusal>
        ensures { refusal_in result ≡ row_check self.now row }
    {
        if let Some(refusal) = self.refused {
            return Err(refusal);
        }
        let sofar = self.written.sofar;
        if room_in(self.out.len()) < sofar.len + (ROW_BYTES + END_BYTES + END_BYTES) {
            return Err(Refusal::WriterSpace);
        }
        if !row.is_of(sofar.kind) {
            return Err(Refusal::WriterKind);
        }
        Ok(())
    }

    // Puts a row behind what is written; refused, it moves nothing.
    #[tactic(auto, using(crate::proofs::Growth::same_put))]
    pub fn put(&mut self, row: Row) -> Result<(), Refusal>
        ensures name { (batch_buffer_of self.new).ghost_name ≡ (batch_buffer_of self.old).ghost_name }
        ensures kept { OnErr result (IsUnmoved self.old self.new) }
        ensures answer { (d : BatchDraft) (old : List ℕ) → BatchStands d old self.old → refusal_in result ≡ put_check (bound (length old)) d row }
        ensures stands { (d : BatchDraft) (old : List ℕ) → BatchStands d old self.old → BatchStands (extended (bound (length old)) d row) old self.new }
    {
        self.check_row(row)?;
        let mut pen = Pen {
            out: self.out,
            at: self.written.sofar.len,
        };
        write_row(&mut pen, row);
        self.written = self.written.with_row(row);
        Ok(())
    }

    // Writes the batch end and goes on with the file; a batch opened against its check leaves no trace.
    pub fn close(self) -> FileOpen<'b>
        ensures name { (buffer_of result).ghost_name ≡ (batch_buffer_of self.entry).ghost_name }
        ensures stands { (d : BatchDraft) (old : List ℕ) → BatchStands d old self.entry → FileStands (closed d) old result }
    {
        let BatchOpen {
            out,
            written,
            refused,
        } = self;
        let sofar = written.sofar;
        if !is_end_due(refused, out.len(), sofar.len) {
            return FileOpen { out, written };
        }
        let mut pen = Pen { out, at: sofar.len };
        write_end(&mut pen, Tag::BatchEnd, sofar.last, sofar.held);
        FileOpen {
            out,
            written: written.with_end(),
        }
    }
}
