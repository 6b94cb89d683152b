// How much of a buffer a file may take, and what its header and its ends must meet.
ghost use Rattle.std.specs.Prelude.{◌≡◌};
ghost use Rattle.memberfile.specs.Headers.{ranged, raw_of};
ghost use Rattle.writer.specs.Drafts.{bound, end_due};

use crate::written::END_BYTES;
use memberfile::check::FILE_MOST_BYTES;
use memberfile::header::Header;
use terms::refusal::Refusal;
use wire::values::RawHeader;

// How many bytes of a buffer a file may take.
pub(crate) fn room_in(buffer_bytes: usize) -> usize
    ensures { result ≡ bound buffer_bytes }
{
    buffer_bytes.min(FILE_MOST_BYTES)
}

// Whether origin, date and file number are in range: what the reader would take.
#[tactic(auto, using(crate::proofs::Lawful::header_taken))]
pub(crate) fn is_lawful(header: Header) -> bool
    ensures { result ≡ ranged (raw_of header) }
{
    Header::try_from(RawHeader::from(header)).is_ok()
}

// Whether an end is due: not where the opening was refused. It then has the space, since every opening and every put left it.
pub(crate) fn is_end_due(refused: Option<Refusal>, buffer_bytes: usize, len: usize) -> bool
    ensures { result ≡ end_due refused buffer_bytes len }
{
    refused.is_none()
        && room_in(buffer_bytes)
            .checked_sub(END_BYTES)
            .is_some_and(|most| len <= most)
}
