// How far a file is written.
ghost use Rattle.std.specs.Prelude.{◌≡◌};
ghost use Rattle.writer.specs.Steps.{blank_at};

use terms::file_kind::FileKind;
use terms::refusal::Refusal;
use wire::values::Totals;

#[derive(Clone, Copy)]
pub(crate) struct Progress {
    pub(crate) kind: FileKind,
    // The refusal that the file was opened against, if any.
    pub(crate) refused: Option<Refusal>,
    // How many bytes are written.
    pub(crate) len: usize,
    // How many batches are closed.
    pub(crate) batches: u16,
    // The number of the last batch that was opened; 0 before the first.
    pub(crate) last: u16,
    // Over all rows.
    pub(crate) totals: Totals,
    // Over the rows of the last batch.
    pub(crate) held: Totals,
}

impl Progress {
    // Nothing written, and nothing refused.
    #[tactic(auto, using(wire::proofs::Totals::default_none))]
    pub(crate) fn blank(kind: FileKind) -> Progress
        ensures { result ≡ blank_at kind }
    {
        Progress {
            kind,
            refused: None,
            len: 0,
            batches: 0,
            last: 0,
            totals: Totals::default(),
            held: Totals::default(),
        }
    }
}
