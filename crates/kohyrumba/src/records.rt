// The records of a file, one to a line, with the place of each.
ghost use Rattle.wire.specs.Records.{Sized, said};
ghost use Rattle.std.specs.Prelude.{◌≡◌, length};

use sitting::amounts::Money;
use std::io;
use wire::reader::Reader;
use wire::record::Record;
use wire::values::{
    BatchHead, Closing, Presentation, RawHeader, Return, batch_head_in, closing_in,
    presentation_in, raw_header_in, return_in,
};

fn show_closing(rt: &HostRuntime, name: &str, closing: Closing) -> io::Result<()> {
    let Closing { number, totals } = closing;
    let count = totals.count;
    let amounts = Money(totals.amounts);
    let commissions = Money(totals.commissions);
    let parties = totals.parties;
    println!(rt;
        "{name} {number} rows={count} amounts={amounts} commissions={commissions} members={parties}"
    )
}

fn show_header(rt: &HostRuntime, v: &[u8]) -> io::Result<()>
    requires { length v.now ≡ 10 }
{
    let RawHeader {
        kind,
        currency,
        cycle,
        origin,
        date,
        number,
    } = raw_header_in(v);
    println!(rt;
        "file header kind={kind} currency={currency} cycle={cycle} origin={origin} date={date} number={number}"
    )
}

fn show_presentation(rt: &HostRuntime, v: &[u8]) -> io::Result<()>
    requires { length v.now ≡ 13 }
{
    let Presentation {
        record_type,
        other,
        reference,
        amount,
        commission,
    } = presentation_in(v);
    let amount = Money(u64::from(amount));
    let commission = Money(u64::from(commission));
    println!(rt;
        "presentation type={record_type} other={other} reference={reference} amount={amount} commission={commission}"
    )
}

fn show_return(rt: &HostRuntime, v: &[u8]) -> io::Result<()>
    requires { length v.now ≡ 13 }
{
    let Return {
        originator,
        reference,
        amount,
        commission,
        cause,
    } = return_in(v);
    let amount = Money(u64::from(amount));
    let commission = Money(u64::from(commission));
    println!(rt;
        "return originator={originator} reference={reference} amount={amount} commission={commission} cause={cause}"
    )
}

fn show_record(rt: &HostRuntime, met: Record) -> io::Result<()>
    requires { Sized (said met) }
{
    match met {
        Record::FileHeader(v) => show_header(rt, v),
        Record::BatchHeader(v) => {
            let BatchHead { kind, number } = batch_head_in(v);
            println!(rt; "batch header kind={kind} number={number}")
        }
        Record::Presentation(v) => show_presentation(rt, v),
        Record::Return(v) => show_return(rt, v),
        Record::BatchEnd(v) => show_closing(rt, "batch end", closing_in(v)),
        Record::FileEnd(v) => show_closing(rt, "file end, batches", closing_in(v)),
    }
}

// The records of a file, up to the first that cannot be read.
pub(crate) fn show_records(rt: &HostRuntime, bytes: &[u8]) -> io::Result<()> {
    let mut reader = Reader::new(bytes);
    while !reader.is_done() {
        let place = reader.place();
        let Ok(record) = reader.next() else {
            return Ok(());
        };
        print!(rt; "  {place:>5} ")?;
        show_record(rt, record)?;
    }
    Ok(())
}
