// The command `bench`: with no folder, how long a clearing of a full table takes, by the clock.
mod clock;
mod folder;
mod input;
mod sum;
mod verdicts;

use crate::bench::clock::timed;
use crate::bench::folder::{FOLDER_WANTED, JOBS, Job, bench_folder};
use crate::bench::input::Covers;
use crate::usage::bad_usage;
use clearing::entry::Entry;
use clearing::netting::clear_by;
use clearing::place::{CAPACITY, MEMBERS, Place};
use console::names::by_name;
use rules::rankings::SendingOrder;
use rules::sources::statement::Statement;
use std::alloc::Global;
use std::array;

const WORTH: u32 = 100;

fn place_of(payer: usize, receiver: usize) -> Place {
    Place {
        entry: Entry {
            record_type: 220,
            origin: 1,
            other: 2,
            reference: 1,
            amount: WORTH,
            commission: 0,
            worth: WORTH,
            payer: (payer % MEMBERS) as u8,
            receiver: (receiver % MEMBERS) as u8,
            returnable: true,
            returned: false,
        },
        kept: false,
    }
}

// A full table of the entries that stand at each place.
fn full_table<F: FnMut(usize) -> Place>(heap: Global, entry: F) -> anyhow::Result<Vec<Place>>
    requires { (state : F) (at : _) → F.pre state at }
{
    Ok((0..CAPACITY).map(entry).collect(heap)?)
}

// The codes from 1, as many as a roll can hold.
fn full_roll() -> [u16; MEMBERS] {
    array::from_fn(|place| place as u16 + 1)
}

// Clears the table so many times, and shows the time that one entry takes.
fn show_time(
    rt: &HostRuntime,
    name: &str,
    source: &Statement,
    places: &mut [Place],
    turns: u32,
) -> anyhow::Result<()> {
    let roll = full_roll();
    let (withdrawn, spent) = timed(rt, || {
        let mut withdrawn = 0;
        for _ in 0..turns {
            withdrawn = clear_by(&SendingOrder, source, &roll, places, CAPACITY).withdrawn;
        }
        withdrawn
    })?;
    let entries = u128::from(turns) * CAPACITY as u128;
    if entries == 0 {
        return Ok(());
    }
    let each = spent / entries;
    println!(rt;
        "{name}: {CAPACITY} entries, {MEMBERS} members, {withdrawn} withdrawn, {turns} times: {each} ns per entry"
    )?;
    Ok(())
}

fn bench_clear(rt: &HostRuntime) -> anyhow::Result<()> {
    // The members pay in turn.
    let mut round = full_table(rt.alloc(), |i| place_of(i, i.wrapping_add(1)))?;
    let ample = Covers::Ample.of(&full_roll());
    show_time(rt, "nothing withdrawn", &ample, &mut round, 2_000)?;
    // The first member pays all.
    let mut chain = full_table(rt.alloc(), |i| place_of(0, i % (MEMBERS - 1) + 1))?;
    show_time(rt, "one payer's chain", &Statement::new(), &mut chain, 20)
}

pub(crate) fn run_bench(rt: &HostRuntime, words: &[&str]) -> anyhow::Result<()> {
    match words {
        [job, folder, rest @ ..] => bench_folder(rt, by_name(&JOBS, job), folder, rest),
        [job] => match by_name(&JOBS, job) {
            Some(Job::Clear) => bench_clear(rt),
            Some(_) => bad_usage(rt, FOLDER_WANTED),
            None => bad_usage(rt, "bench: clear is wanted"),
        },
        [] => bad_usage(rt, "bench: clear is wanted"),
    }
}
