// The kinds of records, and a record as its kind with the value as a part of the file.
ghost use Rattle.wire.specs.Records.{piece, said, tag_of, tag_byte, width};
ghost use Rattle.terms.specs.Unknown.{named};
ghost use Rattle.std.specs.Prelude.{◌≡◌, ◌+◌, length};

use terms::unknown::UnknownNumber;

// How many bytes stand before the value of a record: its tag, and the length of the value.
const HEAD_BYTES: usize = 3;

// The kinds of records that a member file may hold, by their tag bytes.
#[derive(Clone, Copy, Debug, PartialEq, Eq)]
pub enum Tag {
    FileHeader = 1,
    BatchHeader = 5,
    Presentation = 6,
    Return = 7,
    BatchEnd = 8,
    FileEnd = 9,
}

// The tag byte of the kind.
impl From<Tag> for u8 {
    ghost from_gives = { λ tag byte. byte ≡ tag_byte tag };

    fn from(tag: Tag) -> u8 {
        tag as u8
    }
}

// The kind with that tag byte.
impl TryFrom<u8> for Tag {
    type Error = UnknownNumber;

    ghost try_from_gives = { λ byte answer. answer ≡ named (tag_of byte) byte };

    fn try_from(byte: u8) -> Result<Tag, UnknownNumber> {
        match byte {
            1 => Ok(Tag::FileHeader),
            5 => Ok(Tag::BatchHeader),
            6 => Ok(Tag::Presentation),
            7 => Ok(Tag::Return),
            8 => Ok(Tag::BatchEnd),
            9 => Ok(Tag::FileEnd),
            _ => Err(UnknownNumber(byte)),
        }
    }
}

impl Tag {
    // How many bytes the value has.
    pub fn width(self) -> usize
        ensures { result ≡ width self }
    {
        match self {
            Tag::FileHeader => 10,
            Tag::BatchHeader => 3,
            Tag::Presentation => 13,
            Tag::Return => 13,
            Tag::BatchEnd => 24,
            Tag::FileEnd => 24,
        }
    }

    // The record of this kind with that value.
    pub fn with<'a>(self, value: &'a [u8]) -> Record<'a>
        ensures { said result ≡ piece self value.now }
    {
        match self {
            Tag::FileHeader => Record::FileHeader(value),
            Tag::BatchHeader => Record::BatchHeader(value),
            Tag::Presentation => Record::Presentation(value),
            Tag::Return => Record::Return(value),
            Tag::BatchEnd => Record::BatchEnd(value),
            Tag::FileEnd => Record::FileEnd(value),
        }
    }
}

// A record by its kind, with its value as a part of the file.
// The value is of any length: with the width in its type, whoever makes a record by `Tag::with` would have to show more.
#[derive(Clone, Copy)]
pub enum Record<'a> {
    FileHeader(&'a [u8]),
    BatchHeader(&'a [u8]),
    Presentation(&'a [u8]),
    Return(&'a [u8]),
    BatchEnd(&'a [u8]),
    FileEnd(&'a [u8]),
}

impl<'a> Record<'a> {
    // The bytes of the value.
    pub fn value(&self) -> &'a [u8]
        ensures { result.now ≡ (said self.now).value }
    {
        match *self {
            Record::FileHeader(v) => v,
            Record::BatchHeader(v) => v,
            Record::Presentation(v) => v,
            Record::Return(v) => v,
            Record::BatchEnd(v) => v,
            Record::FileEnd(v) => v,
        }
    }
    // How many bytes the record takes, head and value.
    pub fn encoded_len(&self) -> usize
        ensures { result ≡ 3 + length (said self.now).value }
    {
        HEAD_BYTES + self.value().len()
    }
}
