// What the clearing room has on paper: the verdict on each file, and what each clearing leaves.
use crate::amounts::{Balance, Money};
use session::session::mark::Mark;
use session::session::{Session, Taken};
use std::{fmt, io};
use terms::docket::Docket;
use terms::fault::Fault;
use terms::refusal::Refusal;
use wire::row::Row;
use wire::values::Presentation;

// A record that was taken in, as it was sent.
#[derive(Clone, Copy)]
pub struct Listed {
    pub origin: u16,
    pub presentation: Presentation,
}

pub fn show_opening(rt: &HostRuntime, docket: &Docket, places: usize) -> io::Result<()> {
    let date = docket.date();
    let cycle = docket.cycle();
    let currency = docket.currency();
    let members = docket.roll().len();
    println!(rt; "session of {date}, {cycle}, in {currency}: {members} members, {places} places")
}

pub fn show_taken(rt: &HostRuntime, name: &str, rows: Taken) -> io::Result<()> {
    let Taken { taken, turned_away } = rows;
    println!(rt; "{name}: accepted, rows taken {taken}, turned away {turned_away}")
}

pub fn show_refused(rt: &HostRuntime, name: &str, fault: Fault) -> io::Result<()> {
    let Fault {
        cause,
        place,
        layer,
    } = fault;
    let code = u8::from(cause);
    let layer = u8::from(layer);
    println!(rt; "{name}: refused with {code} in layer {layer} at place {place}: {cause}")
}

// Why rows are turned away, but for the cause of a return.
const OF_ROWS: [Refusal; 7] = [
    Refusal::OtherMember,
    Refusal::RecordType,
    Refusal::NotAdmitted,
    Refusal::ReferenceUsed,
    Refusal::NoSuchRecord,
    Refusal::AlreadyReturned,
    Refusal::ReturnDiffers,
];

// Why a row with that code was turned away.
fn cause_of(code: u8) -> Refusal {
    OF_ROWS
        .into_iter()
        .find(|cause| u8::from(*cause) == code)
        .unwrap_or(Refusal::ReturnCause)
}

pub fn show_turned_away(rt: &HostRuntime, at: usize, row: Row, code: u8) -> io::Result<()> {
    let (other, reference, amount) = match row {
        Row::Presentation(p) => (p.other, p.reference, p.amount),
        Row::Return(p) => (p.originator, p.reference, p.amount),
    };
    let amount = Money(u64::from(amount));
    let cause = cause_of(code);
    println!(rt;
        "  row {at}, member {other}, reference {reference}, {amount}: turned away with {code}, {cause}"
    )
}

fn show_withdrawn(rt: &HostRuntime, number: usize, record: &Listed) -> io::Result<()> {
    let origin = record.origin;
    let Presentation {
        other,
        reference,
        amount,
        commission,
        ..
    } = record.presentation;
    let amount = Money(u64::from(amount));
    let commission = Money(u64::from(commission));
    println!(rt;
        "  withdrawn of member {origin}: number {number}, to member {other}, reference {reference}, {amount} and commission {commission}"
    )
}

// The withdrawn records, member by member in the order of the roll.
pub fn show_all_withdrawn(
    rt: &HostRuntime,
    session: &Session,
    records: &[Listed],
) -> io::Result<()> {
    for code in session.docket().roll() {
        for (number, record) in (1..usize::MAX).zip(records) {
            if record.origin == *code && session.mark(number) == Ok(Mark::Withdrawn) {
                show_withdrawn(rt, number, record)?;
            }
        }
    }
    Ok(())
}

fn show_line<N: fmt::Display + Drop>(
    rt: &HostRuntime,
    name: N,
    position: i64,
    cover: u64,
) -> io::Result<()> {
    let position = format!(in rt.alloc(); "{}", Balance(position))?;
    let cover = format!(in rt.alloc(); "{}", Money(cover))?;
    println!(rt; "  {name:>6}  {position:>18}  {cover:>18}")
}

// Positions and covers of all members, with their totals.
pub fn show_positions(rt: &HostRuntime, session: &Session) -> io::Result<()> {
    println!(rt; "  member            position               cover")?;
    let mut positions = 0i64;
    let mut covers = 0u64;
    for code in session.docket().roll() {
        if let (Ok(position), Ok(cover)) = (session.position(*code), session.cover(*code)) {
            show_line(rt, *code, position, cover)?;
            positions = positions.wrapping_add(position);
            covers = covers.wrapping_add(cover);
        }
    }
    show_line(rt, "total", positions, covers)?;
    if positions == 0 {
        println!(rt; "  the positions add up to zero")
    } else {
        println!(rt; "  THE POSITIONS DO NOT ADD UP TO ZERO")
    }
}
