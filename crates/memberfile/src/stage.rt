// Where the check of a file stands, and how a record moves it on.
ghost use Rattle.std.specs.Prelude.{◌≡◌, ℕ, ◌+◌, ◌<◌, ◌≤◌, length, IfOk};
ghost use Rattle.memberfile.specs.Stages.{Room, batch_closed, batch_opened, file_closed, file_opened, goes_to, step_at, stepped, takes};
ghost use Rattle.wire.specs.Records.{Sized, said};
ghost use Rattle.wire.specs.Rows.{Even};

use crate::header::Header;
use terms::fault::Fault;
use terms::refusal::Refusal;
use wire::record::Record;
use wire::row::Row;
use wire::values::{Totals, batch_head_in, closing_in, presentation_in, raw_header_in, return_in};

// What is known of the file so far; the totals count the rows of an open batch too.
#[derive(Clone, Copy)]
pub struct Sofar {
    pub header: Header,
    pub batches: u16,
    // The number of the last batch that was closed, 0 before the first.
    pub last: u16,
    pub presentations: u16,
    pub totals: Totals,
}

#[derive(Clone, Copy)]
pub struct OpenBatch {
    pub number: u16,
    pub totals: Totals,
}

// Where the check stands.
#[derive(Clone, Copy)]
pub enum Stage {
    BeforeHeader,
    Between(Sofar),
    InBatch(Sofar, OpenBatch),
    AfterEnd(Sofar),
}

// Where a record moved the check to, and the row that it was, if one.
#[derive(Clone, Copy)]
pub struct Moved {
    pub stage: Stage,
    pub row: Option<Row>,
}

// A move by a record that is no row.
fn moved_to(stage: Stage) -> Moved
    ensures { result ≡ goes_to stage }
{
    Moved { stage, row: None }
}

fn open_file(v: &[u8]) -> Result<Moved, Refusal>
    requires { length v.now ≡ 10 }
    ensures value { result ≡ file_opened v.now }
    ensures room { IfOk result (λ m. (n : ℕ) → Room n m.stage) }
{
    let header = Header::try_from(raw_header_in(v))?;
    let sofar = Sofar {
        header,
        batches: 0,
        last: 0,
        presentations: 0,
        totals: Totals::default(),
    };
    Ok(moved_to(Stage::Between(sofar)))
}

fn open_batch(sofar: Sofar, v: &[u8]) -> Result<Moved, Refusal>
    requires { length v.now ≡ 3 }
    ensures value { result ≡ batch_opened sofar v.now }
    ensures room { IfOk result (λ m. (n : ℕ) → Room n (Stage.Between sofar) → Room (n + 1) m.stage) }
{
    let head = batch_head_in(v);
    if head.kind != sofar.header.kind.batch_kind() {
        return Err(Refusal::WrongKind);
    }
    if head.number <= sofar.last {
        return Err(Refusal::BatchNumber);
    }
    let batch = OpenBatch {
        number: head.number,
        totals: Totals::default(),
    };
    Ok(moved_to(Stage::InBatch(sofar, batch)))
}

fn take(sofar: Sofar, batch: OpenBatch, row: Row) -> Result<Moved, Refusal>
    requires { (Even sofar.totals) × ((sofar.totals.count < 65535) × ((sofar.presentations < 65535) × ((Even batch.totals) × (batch.totals.count < 65535)))) }
    ensures value { result ≡ takes sofar batch row }
    ensures room { IfOk result (λ m. (n : ℕ) → Room n (Stage.InBatch sofar batch) → Room (n + 1) m.stage) }
{
    if !row.is_of(sofar.header.kind) {
        return Err(Refusal::WrongKind);
    }
    let sofar = Sofar {
        presentations: sofar.presentations + row.presentations(),
        totals: sofar.totals.plus(row),
        ..sofar
    };
    let batch = OpenBatch {
        totals: batch.totals.plus(row),
        ..batch
    };
    Ok(Moved {
        stage: Stage::InBatch(sofar, batch),
        row: Some(row),
    })
}

fn close_batch(sofar: Sofar, batch: OpenBatch, v: &[u8]) -> Result<Moved, Refusal>
    requires { (length v.now ≡ 24) × (sofar.batches < 65535) }
    ensures value { result ≡ batch_closed sofar batch v.now }
    ensures room { IfOk result (λ m. (n : ℕ) → Room n (Stage.InBatch sofar batch) → Room (n + 1) m.stage) }
{
    let closing = closing_in(v);
    if closing.number != batch.number {
        return Err(Refusal::BatchNumber);
    }
    if closing.totals != batch.totals {
        return Err(Refusal::TotalDiffers);
    }
    let sofar = Sofar {
        batches: sofar.batches + 1,
        last: batch.number,
        ..sofar
    };
    Ok(moved_to(Stage::Between(sofar)))
}

fn close_file(sofar: Sofar, v: &[u8]) -> Result<Moved, Refusal>
    requires { length v.now ≡ 24 }
    ensures value { result ≡ file_closed sofar v.now }
    ensures room { IfOk result (λ m. (n : ℕ) → Room n m.stage) }
{
    let closing = closing_in(v);
    if closing.number != sofar.batches || closing.totals != sofar.totals {
        return Err(Refusal::TotalDiffers);
    }
    Ok(moved_to(Stage::AfterEnd(sofar)))
}

// Where the check stands and the record that it meets decide the next step.
fn decide(stage: Stage, met: Record) -> Result<Moved, Refusal>
    requires { (Sized (said met)) × (Room 65534 stage) }
    ensures value { result ≡ stepped stage (said met.entry) }
    ensures room { IfOk result (λ m. (n : ℕ) → Room n stage → Room (n + 1) m.stage) }
{
    match (stage, met) {
        (Stage::BeforeHeader, Record::FileHeader(v)) => open_file(v),
        (Stage::Between(sofar), Record::BatchHeader(v)) => open_batch(sofar, v),
        (Stage::Between(sofar), Record::FileEnd(v)) => close_file(sofar, v),
        (Stage::InBatch(sofar, batch), Record::Presentation(v)) => {
            take(sofar, batch, Row::Presentation(presentation_in(v)))
        }
        (Stage::InBatch(sofar, batch), Record::Return(v)) => {
            take(sofar, batch, Row::Return(return_in(v)))
        }
        (Stage::InBatch(sofar, batch), Record::BatchEnd(v)) => close_batch(sofar, batch, v),
        _ => Err(Refusal::OutOfOrder),
    }
}

// The next step, or the fault of the record at that place.
pub(crate) fn step(stage: Stage, met: Record, place: usize) -> Result<Moved, Fault>
    requires { (Sized (said met)) × (Room 65534 stage) }
    ensures value { result ≡ step_at place stage (said met.entry) }
    ensures room { IfOk result (λ m. (n : ℕ) → Room n stage → Room (n + 1) m.stage) }
{
    // A match: with `map_err` what has moved is copied once more for each record, and the file check takes half as long again.
    match decide(stage, met) {
        Ok(moved) => Ok(moved),
        Err(cause) => Err(Fault::in_file(cause, place)),
    }
}
