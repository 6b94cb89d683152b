// What the program says of itself.
use anyhow::anyhow;
use std::{fmt, io};

const VERSION: &str = "kohyrumba 0.1.0";

const USAGE: &str = "usage: kohyrumba COMMAND

  check [--rows] [--strict] FILE...
      judge member files: one line for each, accepted or refused with code, layer, place and rule
      --rows    the records of each file below its line, up to the first that cannot be read
      --strict  end with status 1 if a file is refused
  session PLAN [--result PATH]
      carry out a plan: a line for each of docket, open, report, pledge, file and clear;
      show the verdict on each file, and what each clearing withdraws and leaves
      --result  write the result file of the last clearing
  demo
      the same on a small session that is built in
  write LIST OUT
      write a member file from a list of its records: file, batch, present and return lines
  console [SCRIPT]
      answer commands, one to a line, from the standard input or from a script, each in one line
  rules
      the limits of each instrument, asked from the instrument itself
  cases
      the cases settled by hand, as the engine settles them
  bench clear
      the time that a clearing of a full table takes
  run SCRIPT
      carry out command lines of this program, one to a line
  --help        this text
  --version     the program's version

In plans and lists a line that begins with # is a comment, and an amount is in hundredths, or has a point and two decimals.
A file that cannot be read, or a command that cannot be understood, ends with status 1.";

pub(crate) fn show_usage(rt: &HostRuntime) -> anyhow::Result<()> {
    println!(rt; "{USAGE}")?;
    Ok(())
}

pub(crate) fn show_version(rt: &HostRuntime) -> anyhow::Result<()> {
    println!(rt; "{VERSION}")?;
    Ok(())
}

// One line that says what is wrong, the usage below it, and an error.
pub(crate) fn bad_usage(rt: &HostRuntime, problem: &str) -> anyhow::Result<()> {
    eprintln!(rt; "kohyrumba: {problem}\n\n{USAGE}")?;
    Err(anyhow!("bad usage"))
}

// One line that says of which file, and what went wrong.
pub(crate) fn show_error<E: fmt::Display>(
    rt: &HostRuntime,
    name: &str,
    error: &E,
) -> io::Result<()> {
    eprintln!(rt; "kohyrumba: {name}: {error}")
}

// What a step with that file gave; one that failed is shown, so that the error says no more than that it failed.
pub(crate) fn shown<T: Drop, E: fmt::Display + Drop>(
    rt: &HostRuntime,
    name: &str,
    res: Result<T, E>,
) -> anyhow::Result<T> {
    match res {
        Ok(value) => Ok(value),
        Err(error) => {
            show_error(rt, name, &error)?;
            Err(anyhow!("a step failed"))
        }
    }
}
