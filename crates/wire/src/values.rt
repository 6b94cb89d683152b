// The values of records, taken apart into their leading fields and the rest.
ghost use Rattle.wire.specs.Values.{batch_head_in, closing_in, presentation_in, raw_header_in, return_in};
ghost use Rattle.std.specs.Prelude.{◌≡◌, length};

use crate::fields::BigEndian;

// A file header as the bytes have it, whether in range or not.
#[derive(Clone, Copy)]
pub struct RawHeader {
    pub kind: u8,
    pub currency: u8,
    pub cycle: u8,
    pub origin: u16,
    pub date: u32,
    pub number: u8,
}

#[derive(Clone, Copy)]
pub struct BatchHead {
    pub kind: u8,
    pub number: u16,
}

// A record that the origin presents against another member.
#[derive(Clone, Copy)]
pub struct Presentation {
    pub record_type: u8,
    pub other: u16,
    pub reference: u32,
    pub amount: u32,
    pub commission: u16,
}

// The return of a record that the originator presented.
#[derive(Clone, Copy)]
pub struct Return {
    pub originator: u16,
    pub reference: u32,
    pub amount: u32,
    pub commission: u16,
    pub cause: u8,
}

// Count and sums over the rows of a batch or a file; the parties are the other members or the originators.
#[derive(Clone, Copy, Debug, Default, PartialEq, Eq)]
pub struct Totals {
    pub count: u16,
    pub amounts: u64,
    pub commissions: u64,
    pub parties: u32,
}

// What stands at the end of a batch or a file: the batch's number or the number of batches, and totals.
#[derive(Clone, Copy)]
pub struct Closing {
    pub number: u16,
    pub totals: Totals,
}

// The fields of a file header's value.
pub fn raw_header_in(v: &[u8]) -> RawHeader
    requires { length v.now ≡ 10 }
    ensures { result ≡ raw_header_in v.now }
{
    let [kind, currency, cycle, rest @ ..] = v else {
        unreachable()
    };
    let (origin, rest) = u16::split(rest);
    let (date, rest) = u32::split(rest);
    let [number, ..] = rest else { unreachable() };
    RawHeader {
        kind: *kind,
        currency: *currency,
        cycle: *cycle,
        origin,
        date,
        number: *number,
    }
}

// The fields of a batch header's value.
pub fn batch_head_in(v: &[u8]) -> BatchHead
    requires { length v.now ≡ 3 }
    ensures { result ≡ batch_head_in v.now }
{
    let [kind, rest @ ..] = v else { unreachable() };
    let (number, _) = u16::split(rest);
    BatchHead {
        kind: *kind,
        number,
    }
}

// The fields of a presentation's value.
pub fn presentation_in(v: &[u8]) -> Presentation
    requires { length v.now ≡ 13 }
    ensures { result ≡ presentation_in v.now }
{
    let [record_type, rest @ ..] = v else {
        unreachable()
    };
    let (other, rest) = u16::split(rest);
    let (reference, rest) = u32::split(rest);
    let (amount, rest) = u32::split(rest);
    let (commission, _) = u16::split(rest);
    Presentation {
        record_type: *record_type,
        other,
        reference,
        amount,
        commission,
    }
}

// The fields of a return's value.
pub fn return_in(v: &[u8]) -> Return
    requires { length v.now ≡ 13 }
    ensures { result ≡ return_in v.now }
{
    let (originator, rest) = u16::split(v);
    let (reference, rest) = u32::split(rest);
    let (amount, rest) = u32::split(rest);
    let (commission, rest) = u16::split(rest);
    let [cause, ..] = rest else { unreachable() };
    Return {
        originator,
        reference,
        amount,
        commission,
        cause: *cause,
    }
}

// The fields of a batch end's or a file end's value.
pub fn closing_in(v: &[u8]) -> Closing
    requires { length v.now ≡ 24 }
    ensures { result ≡ closing_in v.now }
{
    let (number, rest) = u16::split(v);
    let (count, rest) = u16::split(rest);
    let (amounts, rest) = u64::split(rest);
    let (commissions, rest) = u64::split(rest);
    let (parties, _) = u32::split(rest);
    Closing {
        number,
        totals: Totals {
            count,
            amounts,
            commissions,
            parties,
        },
    }
}
