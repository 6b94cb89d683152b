// How the reader goes on, record by record.
ghost use Rattle.std.specs.Prelude.{◌≡◌, ℕ, ◌+◌, ◌≤◌, length, IfOk, nat_le};
ghost use Rattle.wire.specs.Readers.{bytes_of, place_of};
ghost use Rattle.wire.specs.Records.{Sized, advance, first_record, record_at, said, told};

use crate::reader::Reader;
use crate::record::{Record, Tag};
use terms::fault::Fault;
use terms::refusal::Refusal;

// The record that the bytes begin with.
pub fn first_record(bytes: &[u8]) -> Result<Record<'_>, Refusal>
    ensures value { told result ≡ first_record bytes.now }
    ensures sized { IfOk result (λ m. Sized (said m)) }
    ensures within { IfOk result (λ m. 3 + length (said m).value ≤ length bytes.now) }
{
    let [byte, high, low, rest @ ..] = bytes else {
        return Err(Refusal::HeadCut);
    };
    let tag = Tag::try_from(*byte).map_err(|_| Refusal::UnknownTag)?;
    let length = usize::from(u16::from_be_bytes([*high, *low]));
    if length != tag.width() {
        return Err(Refusal::WrongLength);
    }
    let value = rest.get(..length).ok_or(Refusal::ValueCut)?;
    Ok(tag.with(value))
}

impl<'a> Reader<'a> {
    // A reader at the first byte.
    pub fn new(bytes: &'a [u8]) -> Reader<'a>
        ensures bytes { bytes_of result ≡ bytes.now }
        ensures at { place_of result ≡ 0 }
    {
        Reader { bytes, at: 0 }
    }

    // Where the reader stands, in bytes from the first.
    pub fn place(&self) -> usize
        ensures value { result ≡ place_of self.now }
        ensures within { result ≤ length (bytes_of self.now) }
    {
        self.at
    }

    // Whether no byte is left.
    pub fn is_done(&self) -> bool
        ensures { result ≡ nat_le (length (bytes_of self.now)) (place_of self.now) }
    {
        self.bytes.len() <= self.at
    }

    // The record at the reader's place, which then moves behind it; at a fault it stays.
    pub fn next(&mut self) -> Result<Record<'a>, Fault>
        ensures value { told result ≡ record_at (bytes_of self.old) (place_of self.old) }
        ensures after { place_of self.new ≡ place_of self.old + advance result }
        ensures sized { IfOk result (λ m. Sized (said m)) }
        ensures within { place_of self.new ≤ length (bytes_of self.old) }
        ensures bytes { bytes_of self.new ≡ bytes_of self.old }
    {
        let place = self.at;
        let record = first_record(&self.bytes[place..]).map_err(|cause| Fault::in_fields(
            cause, place,
        ))?;
        self.at = place + record.encoded_len();
        Ok(record)
    }
}
