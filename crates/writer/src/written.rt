// How far a file is written, with the limits that follow from the length of what is written.
ghost use Rattle.std.specs.Prelude.{◌≡◌, ◌+◌, ◌*◌, ◌≤◌};
ghost use Rattle.wire.specs.Rows.{Even};
ghost use Rattle.writer.specs.Steps.{batched, begun_at, closed_at, refused_at, rowed};

use crate::progress::Progress;
use terms::file_kind::FileKind;
use terms::refusal::Refusal;
use wire::row::Row;
use wire::values::Totals;

// The bytes of a file header, a batch header, a row, and a batch end or a file end.
pub(crate) const FILE_HEAD_BYTES: usize = 13;

pub(crate) const BATCH_HEAD_BYTES: usize = 6;

pub(crate) const ROW_BYTES: usize = 16;

pub(crate) const END_BYTES: usize = 27;

// Progress whose sums and counts are no more than the bytes written can hold. The progress is a type of its own, since a definition can
// build one in full and cannot build a value that has facts beside it.
#[derive(Clone, Copy)]
pub(crate) struct Written {
    pub(crate) sofar: Progress,
    ghost within: { sofar.len ≤ 65535 },
    ghost even: { Even sofar.totals },
    ghost few: { sofar.totals.count * 16 ≤ sofar.len },
    ghost held_even: { Even sofar.held },
    ghost held_few: { sofar.held.count * 16 ≤ sofar.len },
    ghost ends: { sofar.batches * 27 ≤ sofar.len },
}

impl Written {
    // A file that was opened against its check: nothing is written.
    pub(crate) fn refused(kind: FileKind, refusal: Refusal) -> Written
        ensures { result.sofar ≡ refused_at kind refusal }
    {
        let blank = Progress::blank(kind);
        Written {
            sofar: Progress {
                refused: Some(refusal),
                ..blank
            },
        }
    }

    // A file of which the header is written.
    pub(crate) fn begun(kind: FileKind) -> Written
        ensures { result.sofar ≡ begun_at kind }
    {
        let blank = Progress::blank(kind);
        Written {
            sofar: Progress {
                len: FILE_HEAD_BYTES,
                ..blank
            },
        }
    }

    // With the header of a batch behind what is written.
    #[tactic(auto, using(wire::proofs::Totals::default_none))]
    pub(crate) fn with_batch(self, number: u16) -> Written
        requires { self.sofar.len + 6 ≤ 65535 }
        ensures { result.sofar ≡ batched self.sofar number }
    {
        let sofar = self.sofar;
        Written {
            sofar: Progress {
                len: sofar.len + BATCH_HEAD_BYTES,
                last: number,
                held: Totals::default(),
                ..sofar
            },
        }
    }

    // With a row behind what is written.
    pub(crate) fn with_row(self, row: Row) -> Written
        requires { self.sofar.len + 16 ≤ 65535 }
        ensures { result.sofar ≡ rowed self.sofar row }
    {
        let sofar = self.sofar;
        Written {
            sofar: Progress {
                len: sofar.len + ROW_BYTES,
                totals: sofar.totals.plus(row),
                held: sofar.held.plus(row),
                ..sofar
            },
        }
    }

    // With a batch end behind what is written.
    pub(crate) fn with_end(self) -> Written
        requires { self.sofar.len + 27 ≤ 65535 }
        ensures { result.sofar ≡ closed_at self.sofar }
    {
        let sofar = self.sofar;
        Written {
            sofar: Progress {
                len: sofar.len + END_BYTES,
                batches: sofar.batches + 1,
                ..sofar
            },
        }
    }
}
