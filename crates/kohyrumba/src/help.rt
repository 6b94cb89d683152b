// What each command takes, and what it shows: the text of `COMMAND --help`.

const CHECK: &str = "usage: kohyrumba check [--rows] [--strict] FILE...

Judges member files. For each it prints one line:
  NAME: accepted kind=K currency=C cycle=Y origin=O date=D number=N batches=B rows=R
  NAME: refused code=C layer=L place=P (the rule that is broken)
--rows    shows the records of each file below its line, up to the first that cannot be read
--strict  ends with status 1 if a file is refused
A file that cannot be read from disk ends it with status 1.

example: kohyrumba check --rows crates/kohyrumba/data/files/good-two-batches.bin";

const SESSION: &str = "usage: kohyrumba session PLAN [--result PATH]

Carries out a plan, line by line, and stops at the first line that is wrong:
  docket DATE CYCLE CURRENCY CODE...      20240305 morning soles 2 7 9
  open PLACES                             a session of that docket, for so many records, at most 4,096
  report CODE BALANCE                     a balance, told to the statement
  pledge CODE BALANCE PLEDGE PERCENT      a balance and a pledge, told to the pledges
  file INSTRUMENT PATH                    transfers or debits, and a member file
  clear RULE SOURCE                       sending or wages, statement or pledges
It shows the verdict on each file with the rows turned away, and for each clearing what is withdrawn, the positions and the covers.
--result  writes the result file of the last clearing to PATH; nothing is written if the plan is wrong

example: kohyrumba session crates/kohyrumba/data/plans/morning.plan, after docs/TOUR.md has shown how its files are written";

const DEMO: &str = "usage: kohyrumba demo

Carries out a plan that is built in: three members, four files and three clearings, with a chain of withdrawals,
more cover, a return, and the result file in hexadecimal at the end. It needs no file and writes none.";

const WRITE: &str = "usage: kohyrumba write LIST OUT

Writes a member file from a list of its records, one to a line:
  file KIND CURRENCY CYCLE ORIGIN DATE NUMBER              presentations soles morning 2 20240305 1
  batch NUMBER
  present TYPE OTHER REFERENCE AMOUNT COMMISSION           220 7 1 500.00 0.00
  return ORIGINATOR REFERENCE AMOUNT COMMISSION CAUSE      2 1 500.00 0.00 3
Totals are counted for you. An amount is in hundredths, or has a point and two decimals. Nothing is written if a line is wrong.

example: kohyrumba write crates/kohyrumba/data/lists/transfers-of-2.list transfers-of-2.bin";

const CONSOLE: &str = "usage: kohyrumba console [SCRIPT]

Answers commands, one to a line, from the standard input or from a script, each in one line, until the input ends.
Lines that are blank or begin with # get no answer; a line that cannot be read gets error and the reason.
  docket DATE CYCLE CURRENCY CODE...   open PLACES   statement   pledges
  report CODE BALANCE   pledge CODE BALANCE PLEDGE PERCENT
  intake INSTRUMENT ROOM FILE   clear RULE SOURCE
  position CODE   bilateral CODE CODE   cover CODE   mark NUMBER   result SIZE
  wopen SIZE KIND CURRENCY CYCLE ORIGIN DATE NUMBER   wbatch NUMBER   wclose   wfinish
  wput6 TYPE OTHER REFERENCE AMOUNT COMMISSION   wput7 ORIGINATOR REFERENCE AMOUNT COMMISSION CAUSE
FILE is hexadecimal, - for the empty file, or @PATH. docs/RULES.md says what each line answers.

example: kohyrumba console crates/kohyrumba/data/refusals.console";

const RULES: &str = "usage: kohyrumba rules

Shows the limits of each instrument, asked from the instrument itself.";

const CASES: &str = "usage: kohyrumba cases

Shows the nine cases settled by hand, each with what is kept and the positions, as the engine settles them.";

const BENCH: &str = "usage: kohyrumba bench clear
       kohyrumba bench check FOLDER
       kohyrumba bench intake FOLDER
       kohyrumba bench clear FOLDER RULE COVER
       kohyrumba bench result FOLDER RULE COVER

Without a folder, it prints the time that a clearing of a full table takes, for each entry.

With a folder, it measures the calls upon a session of the member files in FOLDER, as bench/run makes them, and prints one line: what was done, how long
it took, and a checksum of all answers. RULE is sending or wages; COVER is ample, scant or none. bench/run puts a plain Rust program beside it.";

const RUN: &str = "usage: kohyrumba run SCRIPT

Carries out command lines of this program, one to a line, each shown before what it prints. One that fails does not keep the others
back; the status is then 1 at the end.

example: kohyrumba run all.run, in the folder crates/kohyrumba/data";

// The help on a command, if there is such a command.
pub(crate) fn help_on(command: &str) -> Option<&'static str> {
    match command {
        "check" => Some(CHECK),
        "session" => Some(SESSION),
        "demo" => Some(DEMO),
        "write" => Some(WRITE),
        "console" => Some(CONSOLE),
        "rules" => Some(RULES),
        "cases" => Some(CASES),
        "bench" => Some(BENCH),
        "run" => Some(RUN),
        _ => None,
    }
}
