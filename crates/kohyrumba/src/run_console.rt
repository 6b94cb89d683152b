// The command `console`: a line in, an answer out, to the end of the input.
use crate::usage::{bad_usage, shown};
use console::answer::Answer;
use console::console::Console;
use console::misread::Misread;
use std::io::{BufRead, BufReader};
use std::{fs, io};

fn show_answer(rt: &HostRuntime, answer: Result<Answer, Misread>) -> io::Result<()> {
    match answer {
        Ok(answer) => println!(rt; "{answer}"),
        Err(misread) => println!(rt; "error {misread}"),
    }
}

fn answer_line(rt: &HostRuntime, console: &mut Console, line: &str) -> io::Result<()> {
    match console.answer(rt, line) {
        Some(answer) => show_answer(rt, answer),
        None => Ok(()),
    }
}

// Answers each line of the input as soon as it is read.
fn answer_input(rt: &HostRuntime) -> io::Result<()> {
    let mut console = Console::new(rt.alloc());
    for line in BufReader::new(rt.alloc(), rt.stdin())?.split(rt.alloc(), b'\n') {
        let line = line?;
        match std::str::from_utf8(&line) {
            Ok(text) => answer_line(rt, &mut console, text)?,
            Err(_) => show_answer(rt, Err(Misread::Text))?,
        }
    }
    Ok(())
}

// Answers the lines of a script.
fn answer_script(rt: &HostRuntime, path: &str) -> anyhow::Result<()> {
    let script = shown(rt, path, fs::read_to_string(rt, path))?;
    let mut console = Console::new(rt.alloc());
    for line in script.lines() {
        answer_line(rt, &mut console, line)?;
    }
    Ok(())
}

pub(crate) fn run_console(rt: &HostRuntime, words: &[&str]) -> anyhow::Result<()> {
    match words {
        [] => Ok(answer_input(rt)?),
        [path] => answer_script(rt, path),
        _ => bad_usage(rt, "console: one script at most is wanted"),
    }
}
