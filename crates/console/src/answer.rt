// The answer to a command, in one line.
use crate::hexadecimal::Hexadecimal;
use session::session::Taken;
use session::session::mark::Mark;
use std::fmt;
use terms::fault::Fault;
use terms::refusal::Refusal;

#[derive(Drop)]
pub enum Answer {
    Done,
    Refused(Refusal),
    // What came of a file, and the whole outcome buffer.
    Intake(Result<Taken, Fault>, Vec<u8>),
    // How many records a clearing withdrew.
    Withdrawn(usize),
    Position(i64),
    Amount(u64),
    // What a check of the writer says.
    Checked(Result<(), Refusal>),
    // The length of a file or a result, or why there is no result, and the whole buffer.
    Written(Result<usize, Refusal>, Vec<u8>),
}

fn show_intake<W: fmt::Write>(
    f: &mut fmt::Formatter<W>,
    res: &Result<Taken, Fault>,
    outcomes: &[u8],
) -> fmt::Result {
    match res {
        Ok(rows) => write!(f, "taken {} {} ", rows.taken, rows.turned_away)?,
        Err(fault) => {
            let code = u8::from(fault.cause);
            let layer = u8::from(fault.layer);
            write!(f, "refused {code} {layer} {} ", fault.place)?
        }
    }
    write!(f, "{}", Hexadecimal(outcomes))
}

fn show_written<W: fmt::Write>(
    f: &mut fmt::Formatter<W>,
    res: &Result<usize, Refusal>,
    buffer: &[u8],
) -> fmt::Result {
    match res {
        Ok(length) => write!(f, "length {length} ")?,
        Err(refusal) => write!(f, "refused {} ", u8::from(*refusal))?,
    }
    write!(f, "{}", Hexadecimal(buffer))
}

impl fmt::Display for Answer {
    fn fmt<W: fmt::Write>(&self, f: &mut fmt::Formatter<W>) -> fmt::Result {
        match self {
            Answer::Done => f.write_str("ok"),
            Answer::Refused(refusal) => write!(f, "refused {}", u8::from(*refusal)),
            Answer::Intake(res, outcomes) => show_intake(f, res, outcomes),
            Answer::Withdrawn(count) => write!(f, "withdrawn {count}"),
            Answer::Position(amount) => write!(f, "{amount}"),
            Answer::Amount(amount) => write!(f, "{amount}"),
            Answer::Checked(Ok(())) => f.write_str("code 0"),
            Answer::Checked(Err(refusal)) => write!(f, "code {}", u8::from(*refusal)),
            Answer::Written(res, buffer) => show_written(f, res, buffer),
        }
    }
}

impl From<()> for Answer {
    fn from(_done: ()) -> Answer {
        Answer::Done
    }
}

impl From<i64> for Answer {
    fn from(position: i64) -> Answer {
        Answer::Position(position)
    }
}

impl From<u64> for Answer {
    fn from(amount: u64) -> Answer {
        Answer::Amount(amount)
    }
}

impl From<Mark> for Answer {
    fn from(mark: Mark) -> Answer {
        Answer::Amount(u64::from(u8::from(mark)))
    }
}

impl<T: Into<Answer>> From<Result<T, Refusal>> for Answer {
    fn from(res: Result<T, Refusal>) -> Answer {
        match res {
            Ok(answer) => answer.into(),
            Err(refusal) => Answer::Refused(refusal),
        }
    }
}
