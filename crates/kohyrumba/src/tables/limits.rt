// The command `rules`: the limits of each instrument, asked from the instrument itself.
ghost use Rattle.std.specs.Prelude.{◌≤◌};

use crate::usage::bad_usage;
use console::names::{CURRENCIES, INSTRUMENTS};
use rules::instrument::{Denial, Instrument};
use rules::instruments::AnyInstrument;
use sitting::amounts::Money;
use std::io;
use terms::currency::Currency;

// Whether the instrument knows the record type.
fn knows(instrument: AnyInstrument, record_type: u8, currency: Currency) -> bool {
    instrument.admit(record_type, currency, 0, 0) != Err(Denial::RecordType)
}

// The lowest and the highest type that the instrument knows.
fn types_of(instrument: AnyInstrument, currency: Currency) -> (u8, u8) {
    let lowest = (0..=u8::MAX).find(|record_type| knows(instrument, *record_type, currency));
    let highest = (0..=u8::MAX).rfind(|record_type| knows(instrument, *record_type, currency));
    (lowest.unwrap_or(u8::MAX), highest.unwrap_or(0))
}

// The highest number of so many bits that passes, found bit by bit: every lower one down to 1 passes too.
fn highest<F: Fn(u32) -> bool>(bits: u32, passes: F) -> u32
    requires callable { F.IsAlwaysCallable passes }
    requires bits { bits ≤ 32 }
{
    let mut highest = 0;
    for bit in (0..bits).rev() {
        let higher = highest | (1 << bit);
        if passes(higher) {
            highest = higher;
        }
    }
    highest
}

// The highest amount that is admitted.
fn highest_amount(instrument: AnyInstrument, record_type: u8, currency: Currency) -> u32 {
    highest(
        32,
        |amount| instrument.admit(record_type, currency, amount, 0).is_ok(),
    )
}

// The highest commission that is admitted with that amount.
fn highest_commission(
    instrument: AnyInstrument,
    record_type: u8,
    currency: Currency,
    amount: u32,
) -> u32 {
    highest(16, |commission| {
        u16::try_from(commission).is_ok_and(|fits| instrument
            .admit(record_type, currency, amount, fits)
            .is_ok())
    })
}

fn yes_or_no(answer: bool) -> &'static str {
    if answer { "yes" } else { "no" }
}

fn show_limits(rt: &HostRuntime, instrument: AnyInstrument, currency: Currency) -> io::Result<()> {
    let (lowest, highest) = types_of(instrument, currency);
    let most = highest_amount(instrument, lowest, currency);
    let commission = highest_commission(instrument, lowest, currency, most);
    let most = format!(in rt.alloc(); "{}", Money(u64::from(most)))?;
    let commission = format!(in rt.alloc(); "{}", Money(u64::from(commission)))?;
    let zero = yes_or_no(instrument.admit(lowest, currency, 0, 0).is_ok());
    let pays = yes_or_no(instrument.origin_pays());
    let returns = yes_or_no(instrument.takes_returns());
    println!(rt;
        "{instrument:<11} {currency:<9} {lowest:>3} to {highest:<3} {most:>14} {commission:>14}  {zero:<9} {pays:<12} {returns}"
    )
}

pub(crate) fn show_rules(rt: &HostRuntime, words: &[&str]) -> anyhow::Result<()> {
    if !words.is_empty() {
        return bad_usage(rt, "rules: nothing more is wanted");
    }
    println!(rt;
        "instrument  currency  types      highest amount     commission  amount 0  origin pays  returns"
    )?;
    for (_, instrument) in INSTRUMENTS {
        for (_, currency) in CURRENCIES {
            show_limits(rt, instrument, currency)?;
        }
    }
    Ok(())
}
