// The program of the clearing room; it decides nothing itself.
#![tactic(auto)]

mod bench;
mod check_files;
mod help;
mod plans;
mod records;
mod run_console;
mod tables;
mod usage;
mod write_list;

use crate::bench::run_bench;
use crate::check_files::check_files;
use crate::help::help_on;
use crate::plans::{run_demo, run_plan};
use crate::run_console::run_console;
use crate::tables::limits::show_rules;
use crate::tables::settled_cases::show_cases;
use crate::usage::{bad_usage, show_usage, show_version, shown};
use crate::write_list::write_list;
use anyhow::anyhow;
use console::words::words_of;
use std::process::ExitCode;
use std::{env, fs};

// The help on a command, where the words ask for it.
fn help_asked(words: &[&str]) -> Option<&'static str> {
    match words {
        [command, "--help" | "-h"] => help_on(command),
        _ => None,
    }
}

fn obey(rt: &HostRuntime, words: &[&str]) -> anyhow::Result<()> {
    let [command, rest @ ..] = words else {
        return bad_usage(rt, "a command is wanted");
    };
    if let Some(help) = help_asked(words) {
        println!(rt; "{help}")?;
        return Ok(());
    }
    match *command {
        "check" => check_files(rt, rest),
        "console" => run_console(rt, rest),
        "session" => run_plan(rt, rest),
        "demo" => run_demo(rt, rest),
        "write" => write_list(rt, rest),
        "rules" => show_rules(rt, rest),
        "cases" => show_cases(rt, rest),
        "bench" => run_bench(rt, rest),
        "--help" | "-h" | "help" => show_usage(rt),
        "--version" | "-V" => show_version(rt),
        _ => bad_usage(rt, "no such command"),
    }
}

// Carries out the command lines of a script; one that fails does not keep the others back.
fn run_script(rt: &HostRuntime, script: &str) -> anyhow::Result<()> {
    let mut failed = false;
    for line in script.lines() {
        let words = words_of(rt.alloc(), line)?;
        if words.is_empty() || line.starts_with('#') {
            continue;
        }
        println!(rt; "$ kohyrumba {line}")?;
        failed |= obey(rt, &words).is_err();
    }
    if failed {
        return Err(anyhow!("a command failed"));
    }
    Ok(())
}

fn run(rt: &HostRuntime, words: &[&str]) -> anyhow::Result<()> {
    let ["run", rest @ ..] = words else {
        return obey(rt, words);
    };
    if help_asked(words).is_some() {
        return obey(rt, words);
    }
    let [path] = rest else {
        return bad_usage(rt, "run: a script is wanted");
    };
    let script = shown(rt, path, fs::read_to_string(rt, *path))?;
    run_script(rt, script.as_str())
}

fn run_arguments(rt: &HostRuntime) -> anyhow::Result<()> {
    let arguments: Vec<String> = env::args(rt)?.skip(1).collect(rt.alloc())?;
    let words: Vec<&str> = arguments
        .iter()
        .map(|word| word.as_str())
        .collect(rt.alloc())?;
    run(rt, &words)
}

// A command says itself why it fails, in its own words, so that nothing more is printed here.
fn main(rt: HostRuntime) -> ExitCode {
    match run_arguments(&rt) {
        Ok(()) => ExitCode::SUCCESS,
        Err(_) => ExitCode::FAILURE,
    }
}
