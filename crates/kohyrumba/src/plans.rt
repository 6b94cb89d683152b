// The commands `session` and `demo`: a plan carried out and put on paper.
use crate::usage::{bad_usage, shown};
use console::hexadecimal::Hexadecimal;
use result::file::write_result;
use session::session::Session;
use sitting::demo;
use sitting::shelf::Shelf;
use sitting::sitting::Sitting;
use std::{fs, io};

// The longest result: a header, 64 members, 4,096 withdrawn records and the end.
const RESULT_MOST_BYTES: usize = 75_096;

// Carries out a plan of that name. The sitting is lent: it holds a whole session, which would take much of the stack to hand on.
fn carry_out(
    rt: &HostRuntime,
    sitting: &mut Sitting,
    name: &str,
    plan: &str,
) -> anyhow::Result<()> {
    shown(rt, name, sitting.carry_out(rt, plan))
}

// The bytes of the session's result.
fn result_of(rt: &HostRuntime, session: &Session) -> anyhow::Result<Vec<u8>> {
    let mut bytes = vec![in rt.alloc(); 0u8; RESULT_MOST_BYTES]?;
    let length = shown(rt, "there is no result", write_result(session, &mut bytes))?;
    bytes.truncate(length);
    Ok(bytes)
}

fn save(rt: &HostRuntime, path: &str, bytes: &[u8]) -> io::Result<()> {
    fs::write(rt, path, bytes)?;
    println!(rt; "{path}: result of {} bytes", bytes.len())
}

// Carries out the plan in the file of that name, and writes the result where it is wanted.
fn run_file(rt: &HostRuntime, name: &str, result_path: Option<&str>) -> anyhow::Result<()> {
    let plan = shown(rt, name, fs::read_to_string(rt, name))?;
    let mut sitting = Sitting::new(rt.alloc(), Shelf::Disk);
    carry_out(rt, &mut sitting, name, plan.as_str())?;
    let Some(path) = result_path else {
        return Ok(());
    };
    let bytes = result_of(rt, sitting.session())?;
    shown(rt, path, save(rt, path, &bytes))
}

pub(crate) fn run_plan(rt: &HostRuntime, words: &[&str]) -> anyhow::Result<()> {
    match words {
        [plan] => run_file(rt, plan, None),
        [plan, "--result", path] => run_file(rt, plan, Some(*path)),
        [_, _, _] => bad_usage(rt, "session: no such option"),
        _ => bad_usage(rt, "session: PLAN [--result PATH] is wanted"),
    }
}

pub(crate) fn run_demo(rt: &HostRuntime, words: &[&str]) -> anyhow::Result<()> {
    if !words.is_empty() {
        return bad_usage(rt, "demo: nothing more is wanted");
    }
    let mut sitting = Sitting::new(rt.alloc(), Shelf::Demo);
    carry_out(rt, &mut sitting, "demo", demo::PLAN)?;
    let bytes = result_of(rt, sitting.session())?;
    println!(rt; "result of {} bytes: {}", bytes.len(), Hexadecimal(&bytes))?;
    Ok(())
}
