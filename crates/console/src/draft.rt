// A file of the writer's commands. Its states are moved from call to call and cannot be kept between two lines, so that a draft keeps
// what was put, and goes through the states again at each line.
ghost use Rattle.std.specs.Prelude.{◌<◌, vec_len, vec_capacity};
ghost use Rattle.std.specs.Option.{ForSome};

use crate::files::buffer;
use crate::misread::Misread;
use memberfile::header::Header;
use std::alloc::Global;
use terms::refusal::Refusal;
use wire::row::Row;
use writer::states::{FileOpen, check_file};

#[derive(Drop)]
struct Batch {
    number: u16,
    rows: Vec<Row>,
}

#[derive(Drop)]
pub struct Draft {
    size: usize,
    header: Header,
    // Those that are closed.
    batches: Vec<Batch>,
    // The one that is open.
    current: Option<Batch>,
    // So that closing a batch takes no memory.
    ghost room: { ForSome current (λ _. vec_len batches < vec_capacity batches) },
}

// What the writer answers to the newest opening or put, and the file as it would now be finished.
#[derive(Drop)]
pub struct Replay {
    pub newest: Result<(), Refusal>,
    pub buffer: Vec<u8>,
    pub len: usize,
}

impl Draft {
    pub fn new(heap: Global, size: usize, header: Header) -> Draft {
        Draft {
            size,
            header,
            batches: Vec::new(heap),
            current: None,
        }
    }

    pub fn in_batch(&self) -> bool {
        self.current.is_some()
    }

    pub fn open_batch(&mut self, heap: Global, number: u16) -> Result<(), Misread> {
        if self.in_batch() {
            return Err(Misread::BatchOpen);
        }
        self.batches.reserve(1)?;
        let rows = Vec::new(heap);
        self.current = Some(Batch { number, rows });
        Ok(())
    }

    pub fn put(&mut self, row: Row) -> Result<(), Misread> {
        let batch = self.current.as_mut().ok_or(Misread::NoBatchOpen)?;
        batch.rows.push(row)?;
        Ok(())
    }

    pub fn close_batch(&mut self) -> Result<(), Misread> {
        let batch = self.current.take().ok_or(Misread::NoBatchOpen)?;
        self.batches.push(batch).unwrap();
        Ok(())
    }

    // Goes through the writer's states again, into a fresh buffer.
    pub fn replay(&self, heap: Global) -> Result<Replay, Misread> {
        let mut bytes = buffer(heap, self.size)?;
        let mut newest = check_file(&bytes, self.header);
        let mut file = FileOpen::open(&mut bytes, self.header);
        for batch in &self.batches {
            file = put_batch(file, batch, &mut newest);
        }
        // Apart: with a chain of both, a draft of many batches that are refused takes two fifths longer.
        if let Some(batch) = &self.current {
            file = put_batch(file, batch, &mut newest);
        }
        let len = file.finish().len;
        Ok(Replay {
            newest,
            buffer: bytes,
            len,
        })
    }
}

// Puts a batch as it was put before, the refused rows too. Inlined: a call would copy the state of the file twice for each batch.
#[inline(always)]
fn put_batch<'b>(
    file: FileOpen<'b>,
    batch: &Batch,
    newest: &mut Result<(), Refusal>,
) -> FileOpen<'b> {
    *newest = file.check_batch(batch.number);
    let mut open = file.open_batch(batch.number);
    for row in &batch.rows {
        *newest = open.put(*row);
    }
    open.close()
}
