// The check of a member file as a whole.
ghost use Rattle.std.specs.Prelude.{◌≡◌, ℕ, ◌+◌, ◌<◌, ◌≤◌, length, drop, IfOk, OnOk};
ghost use Rattle.memberfile.specs.Judge.{gone, judge, summed, turned};
ghost use Rattle.memberfile.specs.Stages.{Room};
ghost use Rattle.wire.specs.Readers.{bytes_of, place_of};

use crate::header::Header;
use crate::stage::{Moved, Stage, step};
use terms::fault::Fault;
use terms::refusal::Refusal;
use wire::reader::Reader;

// The most bytes that a member file may have.
pub const FILE_MOST_BYTES: usize = 65_535;

// What a file that passes the check is, in short.
#[derive(Clone, Copy)]
pub struct Summary {
    pub header: Header,
    pub batches: u16,
    pub rows: u16,
    // How many of the rows are presentations.
    pub presentations: u16,
}

// Reads one record and takes the step that it asks for; a fault of either rises as it is.
fn turn(reader: &mut Reader, stage: Stage) -> Result<Moved, Fault>
    requires short { length (bytes_of reader.old) ≤ 65535 }
    requires room { Room (place_of reader.old) stage }
    ensures value { result ≡ turned (place_of reader.old) stage (drop (place_of reader.old) (bytes_of reader.old)) }
    ensures after { OnOk result (place_of reader.new ≡ place_of reader.old + gone (drop (place_of reader.old) (bytes_of reader.old))) }
    ensures far { OnOk result (place_of reader.old < place_of reader.new) }
    ensures within { place_of reader.new ≤ length (bytes_of reader.old) }
    ensures bytes { bytes_of reader.new ≡ bytes_of reader.old }
    ensures room { IfOk result (λ m. Room (place_of reader.new) m.stage) }
{
    let place = reader.place();
    let met = reader.next()?;
    step(stage, met, place)
}

// What the file in the bytes is, or its first fault.
pub fn check(bytes: &[u8]) -> Result<Summary, Fault>
    ensures { result ≡ summed (judge bytes.now) }
{
    if bytes.len() > FILE_MOST_BYTES {
        return Err(Fault::in_fields(Refusal::FileTooLong, 0));
    }
    let mut reader = Reader::new(bytes);
    let mut stage = Stage::BeforeHeader;
    let sofar = loop {
        if let Stage::AfterEnd(sofar) = stage {
            break sofar;
        }
        stage = turn(&mut reader, stage)?.stage;
    };
    if !reader.is_done() {
        return Err(Fault::in_file(Refusal::OutOfOrder, reader.place()));
    }
    Ok(Summary {
        header: sofar.header,
        batches: sofar.batches,
        rows: sofar.totals.count,
        presentations: sofar.presentations,
    })
}
