// The command `cases`: the cases settled by hand, as the engine settles them.
use crate::usage::bad_usage;
use cases::engine::{ROLL, run};
use cases::table::Case;
use clearing::place::Place;
use std::io;

// The session numbers of the records kept.
fn show_kept(rt: &HostRuntime, places: &[Place], held: usize) -> io::Result<()> {
    if !places.iter().take(held).any(|place| place.kept) {
        return print!(rt; " none");
    }
    for (number, place) in (1..usize::MAX).zip(places.iter().take(held)) {
        if place.kept {
            print!(rt; " {number}")?;
        }
    }
    Ok(())
}

fn show_case(rt: &HostRuntime, case: Case) -> io::Result<()> {
    let letter = char::from(case);
    let outcome = run(case);
    print!(rt; "{letter}  kept")?;
    show_kept(rt, &outcome.places, outcome.held)?;
    print!(rt; "; positions")?;
    for (code, position) in ROLL.iter().zip(outcome.positions.iter()) {
        print!(rt; "  {code}: {position}")?;
    }
    println!(rt; "")
}

pub(crate) fn show_cases(rt: &HostRuntime, words: &[&str]) -> anyhow::Result<()> {
    if !words.is_empty() {
        return bad_usage(rt, "cases: nothing more is wanted");
    }
    println!(rt; "what the engine keeps, and the positions in centimos")?;
    for case in Case::ALL {
        show_case(rt, case)?;
    }
    Ok(())
}
