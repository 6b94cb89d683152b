// The command `check`: a verdict for each member file.
use crate::records::show_records;
use crate::usage::{bad_usage, show_error};
use anyhow::anyhow;
use exactness::judged::judge_file;
use memberfile::check::Summary;
use memberfile::header::Header;
use std::{fs, io};
use terms::fault::Fault;

#[derive(Clone, Copy, Default)]
struct Options {
    rows: bool,
    strict: bool,
}

fn show_accepted(rt: &HostRuntime, name: &str, file: Summary) -> io::Result<()> {
    let Header {
        kind,
        currency,
        cycle,
        origin,
        date,
        number,
    } = file.header;
    let kind = u8::from(kind);
    let currency = u8::from(currency);
    let cycle = u8::from(cycle);
    let batches = file.batches;
    let rows = file.rows;
    println!(rt;
        "{name}: accepted kind={kind} currency={currency} cycle={cycle} origin={origin} date={date} number={number} batches={batches} rows={rows}"
    )
}

fn show_refused(rt: &HostRuntime, name: &str, fault: Fault) -> io::Result<()> {
    let Fault {
        cause,
        place,
        layer,
    } = fault;
    let code = u8::from(cause);
    let layer = u8::from(layer);
    println!(rt; "{name}: refused code={code} layer={layer} place={place} ({cause})")
}

// Judges the file of that name; false where it is refused.
fn check_file(rt: &HostRuntime, options: Options, name: &str) -> io::Result<bool> {
    let bytes = fs::read(rt, name)?;
    let verdict = judge_file(&bytes);
    match verdict {
        Ok(file) => show_accepted(rt, name, file)?,
        Err(fault) => show_refused(rt, name, fault)?,
    }
    if options.rows {
        show_records(rt, &bytes)?;
    }
    Ok(verdict.is_ok())
}

fn is_option(word: &str) -> bool {
    word.starts_with("--")
}

// Judges the files in their order; one that cannot be read is named, and the others are still judged.
fn check_all(rt: &HostRuntime, options: Options, words: &[&str]) -> anyhow::Result<()> {
    let mut refused = false;
    let mut unread = false;
    for name in words.iter().filter(|word| !is_option(word)) {
        match check_file(rt, options, name) {
            Ok(accepted) => refused |= !accepted,
            Err(error) => {
                unread = true;
                show_error(rt, name, &error)?;
            }
        }
    }
    if unread {
        return Err(anyhow!("a file could not be read"));
    }
    if refused && options.strict {
        return Err(anyhow!("a file was refused"));
    }
    Ok(())
}

pub(crate) fn check_files(rt: &HostRuntime, words: &[&str]) -> anyhow::Result<()> {
    let mut options = Options::default();
    for option in words.iter().filter(|word| is_option(word)) {
        match *option {
            "--rows" => options.rows = true,
            "--strict" => options.strict = true,
            _ => return bad_usage(rt, "check: no such option"),
        }
    }
    if words.iter().all(|word| is_option(word)) {
        return bad_usage(rt, "check: a file is wanted");
    }
    check_all(rt, options, words)
}
