// The commands `bench check`, `intake`, `clear` and `result` with a folder: how long the calls upon a session take, by the clock,
// over the member files of the folder.
use crate::bench::clock::{Best, REPEATS, best_of};
use crate::bench::input::{COVERS, Input, blank_places, read_input};
use crate::bench::sum::Sum;
use crate::bench::verdicts::Verdicts;
use crate::usage::{bad_usage, shown};
use console::names::{RANKINGS, by_name};
use memberfile::check::FILE_MOST_BYTES;
use result::file::write_result;
use rules::instruments::transfers::CreditTransfers;
use rules::ranking::Ranking;
use rules::rankings::{AnyRanking, SendingOrder, WagesFirst};
use rules::sources::statement::Statement;
use session::session::Session;

pub(crate) const FOLDER_WANTED: &str =
    "bench: check FOLDER, intake FOLDER, clear FOLDER RULE COVER or result FOLDER RULE COVER is wanted";

// No file has as many rows as it may have bytes, and no result is longer than twice that.
const OUTCOMES: usize = FILE_MOST_BYTES;

const RESULT_ROOM: usize = 2 * FILE_MOST_BYTES;

// What is measured.
#[derive(Clone, Copy, PartialEq, Eq)]
pub(crate) enum Job {
    Check,
    Intake,
    Clear,
    Result,
}

pub(crate) const JOBS: [(&str, Job); 4] = [
    ("check", Job::Check),
    ("intake", Job::Intake),
    ("clear", Job::Clear),
    ("result", Job::Result),
];

// A session over the places that has taken the files in.
fn taken_in(input: &Input, session: Session, out: &mut [u8]) -> Session {
    let mut session = session;
    for file in &input.files {
        let _ = session.intake(&CreditTransfers, file, out);
    }
    session
}

fn new_session(rt: &HostRuntime, input: &Input) -> anyhow::Result<Session> {
    let mut out = vec![in rt.alloc(); 0u8; OUTCOMES]?;
    let empty = Session::open(input.docket, blank_places(rt.alloc())?);
    Ok(taken_in(input, empty, &mut out))
}

// Shows the best time of a job, the rows that it was for, and what came of it.
fn show(
    rt: &HostRuntime,
    job: &str,
    rows: usize,
    picoseconds: u128,
    sum: Sum,
) -> anyhow::Result<()> {
    println!(rt;
        "{job} rows={rows} picoseconds={picoseconds} sum={:016x}",
        sum.value()
    )?;
    Ok(())
}

// Judges the files, without a session. This and the next are not inlined into the function that chooses among the jobs: what they hold,
// sessions among it, would stand on the stack beside those of all the others.
#[inline(never)]
fn bench_check(rt: &HostRuntime, input: &Input) -> anyhow::Result<()> {
    let (verdicts, best) = best_of(rt, || Ok(()), |()| Verdicts::on(&input.files))?;
    show(
        rt,
        "check",
        verdicts.rows,
        best.picoseconds(1),
        verdicts.sum,
    )
}

// Takes the files in, into a new session each turn; the places are made before the clock starts.
#[inline(never)]
fn bench_intake(rt: &HostRuntime, input: &Input) -> anyhow::Result<()> {
    let mut out = vec![in rt.alloc(); 0u8; OUTCOMES]?;
    let (last, best) = best_of(
        rt,
        || blank_places(rt.alloc()),
        |places| taken_in(input, Session::open(input.docket, places), &mut out),
    )?;
    let mut sum = Sum::new();
    let mut session = Session::open(input.docket, blank_places(rt.alloc())?);
    sum.add_intakes(&mut session, &input.files, &mut out);
    sum.add_session(&last);
    show(rt, "intake", last.held(), best.picoseconds(1), sum)
}

// Clears the session over and over, each time from all its records.
fn bench_clear<R: Ranking>(
    rt: &HostRuntime,
    session: Session,
    rule: &R,
    source: &Statement,
) -> anyhow::Result<()> {
    let mut session = session;
    let withdrawn = session.clear(rule, source);
    let (_, best) = best_of(
        rt,
        || Ok(()),
        |()| {
            for _ in 0..REPEATS {
                let _ = session.clear(rule, source);
            }
        },
    )?;
    let mut sum = Sum::new();
    sum.add(withdrawn as u64);
    sum.add_session(&session);
    show(rt, "clear", session.held(), best.picoseconds(REPEATS), sum)
}

// Clears the session once, and writes its result over and over.
fn bench_result<R: Ranking>(
    rt: &HostRuntime,
    session: Session,
    rule: &R,
    source: &Statement,
) -> anyhow::Result<()> {
    let mut session = session;
    let mut out = vec![in rt.alloc(); 0u8; RESULT_ROOM]?;
    let _ = session.clear(rule, source);
    let (_, best) = best_of(
        rt,
        || Ok(()),
        |()| {
            for _ in 0..REPEATS {
                let _ = write_result(&session, &mut out);
            }
        },
    )?;
    let mut sum = Sum::new();
    sum.add_bytes(&out);
    show(rt, "result", session.held(), best.picoseconds(REPEATS), sum)
}

fn bench_cleared<R: Ranking>(
    rt: &HostRuntime,
    job: Option<Job>,
    input: &Input,
    rule: &R,
    cover: &str,
) -> anyhow::Result<()> {
    let Some(covers) = by_name(&COVERS, cover) else {
        return bad_usage(rt, FOLDER_WANTED);
    };
    let source = covers.of(input.docket.roll());
    let session = new_session(rt, input)?;
    match job {
        Some(Job::Clear) => bench_clear(rt, session, rule, &source),
        Some(Job::Result) => bench_result(rt, session, rule, &source),
        _ => bad_usage(rt, FOLDER_WANTED),
    }
}

fn bench_files(rt: &HostRuntime, job: Option<Job>, input: &Input) -> anyhow::Result<()> {
    match job {
        Some(Job::Check) => bench_check(rt, input),
        Some(Job::Intake) => bench_intake(rt, input),
        _ => bad_usage(rt, FOLDER_WANTED),
    }
}

// Does the job that is named, over a folder, and where the job clears also by a rule and with covers.
pub(crate) fn bench_folder(
    rt: &HostRuntime,
    job: Option<Job>,
    folder: &str,
    rest: &[&str],
) -> anyhow::Result<()> {
    let input = shown(rt, folder, read_input(rt, folder))?;
    let [rule, cover] = rest else {
        return bench_files(rt, job, &input);
    };
    match by_name(&RANKINGS, rule) {
        Some(AnyRanking::Sending) => bench_cleared(rt, job, &input, &SendingOrder, cover),
        Some(AnyRanking::Wages) => bench_cleared(rt, job, &input, &WagesFirst, cover),
        None => bad_usage(rt, FOLDER_WANTED),
    }
}
