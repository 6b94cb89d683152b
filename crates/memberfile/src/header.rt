// The header of a member file, in range.
ghost use Rattle.memberfile.specs.Headers.{header_of, ranged, raw_of};
ghost use Rattle.std.specs.Prelude.{◌≡◌, ok_or};
ghost use Rattle.terms.specs.declared.refusal.Refusal.TheVariants.{HeaderValue};

use terms::currency::Currency;
use terms::cycle::Cycle;
use terms::date::is_day;
use terms::file_kind::FileKind;
use terms::refusal::Refusal;
use wire::values::RawHeader;

#[derive(Clone, Copy)]
pub struct Header {
    pub kind: FileKind,
    pub currency: Currency,
    pub cycle: Cycle,
    // The sending member's code.
    pub origin: u16,
    // Eight digits: year, month, day.
    pub date: u32,
    pub number: u8,
}

// Whether origin, date and file number are in range.
fn is_ranged(raw: RawHeader) -> bool
    ensures { result ≡ ranged raw }
{
    1 <= raw.origin && raw.origin <= 999 && 1 <= raw.number && raw.number <= 99 && is_day(raw.date)
}

// The header that the bytes say, if each of its values is in range.
impl TryFrom<RawHeader> for Header {
    type Error = Refusal;

    ghost try_from_gives = { λ raw answer. answer ≡ ok_or (header_of raw) HeaderValue };

    fn try_from(raw: RawHeader) -> Result<Header, Refusal> {
        let kind = FileKind::try_from(raw.kind).map_err(|_| Refusal::HeaderValue)?;
        let currency = Currency::try_from(raw.currency).map_err(|_| Refusal::HeaderValue)?;
        let cycle = Cycle::try_from(raw.cycle).map_err(|_| Refusal::HeaderValue)?;
        if !is_ranged(raw) {
            return Err(Refusal::HeaderValue);
        }
        Ok(Header {
            kind,
            currency,
            cycle,
            origin: raw.origin,
            date: raw.date,
            number: raw.number,
        })
    }
}

// The numbers that say a header.
impl From<Header> for RawHeader {
    ghost from_gives = { λ header raw. raw ≡ raw_of header };

    fn from(header: Header) -> RawHeader {
        RawHeader {
            kind: u8::from(header.kind),
            currency: u8::from(header.currency),
            cycle: u8::from(header.cycle),
            origin: header.origin,
            date: header.date,
            number: header.number,
        }
    }
}
