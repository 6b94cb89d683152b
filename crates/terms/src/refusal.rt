// Why a call refuses, or a row is turned away: one table for the whole engine, each with the rule in words for a clerk.
ghost use Rattle.terms.specs.Codes.{code};
ghost use Rattle.std.specs.Prelude.{◌≡◌};

use thiserror::Error;

#[derive(Clone, Copy, Debug, PartialEq, Eq, Error)]
#[error("{}", self.words())]
pub enum Refusal {
    RollRule,
    DocketValue,
    FileTooLong,
    HeadCut,
    UnknownTag,
    WrongLength,
    ValueCut,
    OutOfOrder,
    WrongKind,
    BatchNumber,
    TotalDiffers,
    HeaderValue,
    NotThisSession,
    OriginOffRoll,
    FileNumber,
    ReturnsNotTaken,
    CapacityExceeded,
    OutcomesShort,
    OtherMember,
    RecordType,
    NotAdmitted,
    ReferenceUsed,
    NoSuchRecord,
    AlreadyReturned,
    ReturnDiffers,
    ReturnCause,
    ReportLimits,
    TooManyReports,
    NotCleared,
    NotListed,
    BufferShort,
    WriterValue,
    WriterSpace,
    WriterKind,
}

impl Refusal {
    // The rule in words, for a clerk; what it shows as an error.
    pub fn words(self) -> &'static str {
        match self {
            Refusal::RollRule => "the roll must hold 2 to 64 rising member codes from 1 to 999",
            Refusal::DocketValue => "date, cycle or currency is out of range",
            Refusal::FileTooLong => "the file is longer than 65,535 bytes",
            Refusal::HeadCut => "fewer than 3 bytes are left where a record must begin",
            Refusal::UnknownTag => "the tag is unknown",
            Refusal::WrongLength => "the length is not that of the tag",
            Refusal::ValueCut => "the value runs past the end of the file",
            Refusal::OutOfOrder => "the record is out of order",
            Refusal::WrongKind => "batch kind or row tag is not that of the file kind",
            Refusal::BatchNumber =>
                "the batch number is not above the last, or the batch end names another",
            Refusal::TotalDiffers => "a total or the number of batches differs",
            Refusal::HeaderValue => "a value of the file header is out of range",
            Refusal::NotThisSession => "date, cycle or currency is not that of the session",
            Refusal::OriginOffRoll => "the origin is not on the roll",
            Refusal::FileNumber => "the file number is not one above the last accepted",
            Refusal::ReturnsNotTaken => "the instrument takes no returns",
            Refusal::CapacityExceeded => "the presentations exceed the places left in the session",
            Refusal::OutcomesShort => "the outcome buffer is shorter than the rows",
            Refusal::OtherMember => "the other member is off the roll or is the origin",
            Refusal::RecordType => "the type is not one of the instrument",
            Refusal::NotAdmitted => "amount or commission is not admitted",
            Refusal::ReferenceUsed => "the reference is 0 or already used by this origin",
            Refusal::NoSuchRecord =>
                "no such record was sent to this origin, or its instrument takes no returns",
            Refusal::AlreadyReturned => "the record is already returned",
            Refusal::ReturnDiffers => "amount or commission differs from the record",
            Refusal::ReturnCause => "the cause is not 1 to 20, or is 12",
            Refusal::ReportLimits => "code or value of the report is out of limits",
            Refusal::TooManyReports => "64 codes are reported already",
            Refusal::NotCleared => "the session is not cleared",
            Refusal::NotListed => "the code is off the roll, or there is no such number",
            Refusal::BufferShort => "the result is longer than the buffer",
            Refusal::WriterValue =>
                "a header value is out of range, or the batch number is not above the last",
            Refusal::WriterSpace => "there is no space for this record and the ends still due",
            Refusal::WriterKind => "the record is not of the file kind",
        }
    }
}

// The number that answers carry for it.
impl From<Refusal> for u8 {
    ghost from_gives = { λ refusal number. number ≡ code refusal };

    fn from(refusal: Refusal) -> u8 {
        match refusal {
            Refusal::RollRule => 1,
            Refusal::DocketValue => 2,
            Refusal::FileTooLong => 10,
            Refusal::HeadCut => 11,
            Refusal::UnknownTag => 12,
            Refusal::WrongLength => 13,
            Refusal::ValueCut => 11,
            Refusal::OutOfOrder => 20,
            Refusal::WrongKind => 21,
            Refusal::BatchNumber => 22,
            Refusal::TotalDiffers => 23,
            Refusal::HeaderValue => 24,
            Refusal::NotThisSession => 30,
            Refusal::OriginOffRoll => 31,
            Refusal::FileNumber => 32,
            Refusal::ReturnsNotTaken => 33,
            Refusal::CapacityExceeded => 34,
            Refusal::OutcomesShort => 35,
            Refusal::OtherMember => 40,
            Refusal::RecordType => 41,
            Refusal::NotAdmitted => 42,
            Refusal::ReferenceUsed => 43,
            Refusal::NoSuchRecord => 44,
            Refusal::AlreadyReturned => 45,
            Refusal::ReturnDiffers => 46,
            Refusal::ReturnCause => 47,
            Refusal::ReportLimits => 50,
            Refusal::TooManyReports => 51,
            Refusal::NotCleared => 52,
            Refusal::NotListed => 53,
            Refusal::BufferShort => 54,
            Refusal::WriterValue => 60,
            Refusal::WriterSpace => 61,
            Refusal::WriterKind => 62,
        }
    }
}
