// What a member file carries: presentations of new records, or returns of records received.
ghost use Rattle.terms.specs.Numbers.{batch_kind, kind_number, kind_of};
ghost use Rattle.terms.specs.Unknown.{named};
ghost use Rattle.std.specs.Prelude.{◌≡◌};

use crate::unknown::UnknownNumber;

#[derive(Clone, Copy, Debug, PartialEq, Eq)]
pub enum FileKind {
    Presentations = 1,
    Returns = 2,
}

impl FileKind {
    // The number that the batch headers of such a file carry.
    pub fn batch_kind(self) -> u8
        ensures { result ≡ batch_kind self }
    {
        match self {
            FileKind::Presentations => 32,
            FileKind::Returns => 31,
        }
    }
}

// The number that a file header carries for it.
impl From<FileKind> for u8 {
    ghost from_gives = { λ kind number. number ≡ kind_number kind };

    fn from(kind: FileKind) -> u8 {
        kind as u8
    }
}

// The kind with that number.
impl TryFrom<u8> for FileKind {
    type Error = UnknownNumber;

    ghost try_from_gives = { λ number answer. answer ≡ named (kind_of number) number };

    fn try_from(number: u8) -> Result<FileKind, UnknownNumber> {
        match number {
            1 => Ok(FileKind::Presentations),
            2 => Ok(FileKind::Returns),
            _ => Err(UnknownNumber(number)),
        }
    }
}
