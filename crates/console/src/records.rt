// The values of records, as the words of a line say them.
ghost use Rattle.std.specs.Prelude.{◌≡◌, true, length, IfOk, OnOk};
ghost use Rattle.terms.specs.declared.file_kind.FileKind.TheVariants.{Presentations, Returns};
ghost use Rattle.wire.specs.Rows.{is_of};

use crate::misread::Misread;
use crate::words::number;
use wire::row::Row;
use wire::values::{Presentation, RawHeader, Return};

// How such a line is read: what it takes, and which words may stand for numbers and amounts.
pub trait Reading {
    const HEADER: &'static str;

    const PRESENTATION: &'static str;

    const RETURN: &'static str;

    // Three methods, since no proof is made of an impl whose method has a type parameter with bounds.
    fn kind(word: &str) -> Result<u8, Misread>;

    fn currency(word: &str) -> Result<u8, Misread>;

    fn cycle(word: &str) -> Result<u8, Misread>;

    fn amount(word: &str) -> Result<u64, Misread>;
}

// An amount that fits the field of a record.
fn field<R: Reading, N: TryFrom<u64>>(word: &str) -> Result<N, Misread>
where
    N::Error: Drop,
{
    N::try_from(R::amount(word)?).map_err(|_| Misread::Number)
}

// The header that six words say.
pub fn header_in<R: Reading>(words: &[&str]) -> Result<RawHeader, Misread>
    ensures { OnOk result (length words.now ≡ 6) }
{
    let [kind, currency, cycle, origin, date, file_number] = words else {
        return Err(Misread::Usage(R::HEADER));
    };
    Ok(RawHeader {
        kind: R::kind(kind)?,
        currency: R::currency(currency)?,
        cycle: R::cycle(cycle)?,
        origin: number(origin)?,
        date: number(date)?,
        number: number(file_number)?,
    })
}

// The presentation that five words say.
pub fn presentation_in<R: Reading>(words: &[&str]) -> Result<Row, Misread>
    ensures words { OnOk result (length words.now ≡ 5) }
    ensures row { IfOk result (λ row. is_of Presentations row ≡ true) }
{
    let [record_type, other, reference, amount, commission] = words else {
        return Err(Misread::Usage(R::PRESENTATION));
    };
    Ok(Row::Presentation(Presentation {
        record_type: number(record_type)?,
        other: number(other)?,
        reference: number(reference)?,
        amount: field::<R, u32>(amount)?,
        commission: field::<R, u16>(commission)?,
    }))
}

// The return that five words say.
pub fn return_in<R: Reading>(words: &[&str]) -> Result<Row, Misread>
    ensures words { OnOk result (length words.now ≡ 5) }
    ensures row { IfOk result (λ row. is_of Returns row ≡ true) }
{
    let [originator, reference, amount, commission, cause] = words else {
        return Err(Misread::Usage(R::RETURN));
    };
    Ok(Row::Return(Return {
        originator: number(originator)?,
        reference: number(reference)?,
        amount: field::<R, u32>(amount)?,
        commission: field::<R, u16>(commission)?,
        cause: number(cause)?,
    }))
}
