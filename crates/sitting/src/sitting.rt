// A sitting of the clearing room: a plan carried out line by line, and what it says put on paper.
use crate::papers::{
    Listed, show_all_withdrawn, show_opening, show_positions, show_refused, show_taken,
    show_turned_away,
};
use crate::reading::Listing;
use crate::shelf::Shelf;
use crate::why::{Why, Wrong};
use console::console::{Console, is_silent};
use console::misread::Misread;
use console::names::{INSTRUMENTS, RANKINGS, SOURCES, by_name};
use console::records::Reading;
use console::words::{number, numbers, words_of};
use desk::calls;
use memberfile::check::check;
use memberfile::rows::Rows;
use session::session::Session;
use std::alloc::Global;
use wire::row::Row;

// As many outcomes as a file can have rows, and more.
const OUTCOMES: usize = 4_096;

#[derive(Drop)]
pub struct Sitting {
    console: Console,
    shelf: Shelf,
    // In the order of their session numbers.
    records: Vec<Listed>,
}

impl Sitting {
    pub fn new(heap: Global, shelf: Shelf) -> Sitting {
        Sitting {
            console: Console::new(heap),
            shelf,
            records: Vec::new(heap),
        }
    }

    pub fn session(&self) -> &Session {
        self.console.session()
    }

    // Carries out the lines of a plan, up to the first that is wrong.
    pub fn carry_out(&mut self, rt: &HostRuntime, plan: &str) -> Result<(), Wrong> {
        for (line, words) in (1..usize::MAX).zip(plan.lines()) {
            self.obey(rt, words).map_err(|why| Wrong { line, why })?;
        }
        Ok(())
    }

    fn obey(&mut self, rt: &HostRuntime, line: &str) -> Result<(), Why> {
        if is_silent(line) {
            return Ok(());
        }
        let words = words_of(rt.alloc(), line)?;
        let [command, rest @ ..] = words.as_slice() else {
            return Ok(());
        };
        match *command {
            "docket" => self.fill_docket(rt.alloc(), rest),
            "open" => self.open(rt, rest),
            "report" => self.report(rest),
            "pledge" => self.pledge(rest),
            "file" => self.take_file(rt, rest),
            "clear" => self.clear(rt, rest),
            _ => Err(Why::Misread(Misread::Command)),
        }
    }

    fn fill_docket(&mut self, heap: Global, words: &[&str]) -> Result<(), Why> {
        let [date, cycle, currency, codes @ ..] = words else {
            return Err(Why::Misread(Misread::Usage("docket DATE CYCLE CURRENCY CODE...")));
        };
        let date = number(date)?;
        let cycle = Listing::cycle(cycle)?;
        let currency = Listing::currency(currency)?;
        let roll = numbers(heap, codes)?;
        Ok(self.console.set_docket(date, cycle, currency, &roll)?)
    }

    fn open(&mut self, rt: &HostRuntime, words: &[&str]) -> Result<(), Why> {
        let [places] = words else {
            return Err(Why::Misread(Misread::Usage("open PLACES")));
        };
        let places = number(places)?;
        self.console.open(rt.alloc(), places)?;
        self.records.clear();
        Ok(show_opening(rt, self.session().docket(), places)?)
    }

    fn report(&mut self, words: &[&str]) -> Result<(), Why> {
        let [code, balance] = words else {
            return Err(Why::Misread(Misread::Usage("report CODE BALANCE")));
        };
        let code = number(code)?;
        let balance = Listing::amount(balance)?;
        Ok(self.console.set_balance(code, balance)?)
    }

    fn pledge(&mut self, words: &[&str]) -> Result<(), Why> {
        let [code, balance, pledge, percent] = words else {
            return Err(Why::Misread(Misread::Usage("pledge CODE BALANCE PLEDGE PERCENT")));
        };
        let code = number(code)?;
        let balance = Listing::amount(balance)?;
        let pledge = Listing::amount(pledge)?;
        let percent = number(percent)?;
        Ok(self.console.set_pledge(code, balance, pledge, percent)?)
    }

    fn take_file(&mut self, rt: &HostRuntime, words: &[&str]) -> Result<(), Why> {
        let [instrument, name] = words else {
            return Err(Why::Misread(Misread::Usage("file INSTRUMENT PATH")));
        };
        let instrument = by_name(&INSTRUMENTS, instrument).ok_or(Misread::Instrument)?;
        let bytes = self.shelf.file(rt, name)?;
        let mut outcomes = vec![in rt.alloc(); 0u8; OUTCOMES]?;
        match self
            .console
            .take_in(instrument, &bytes, OUTCOMES, &mut outcomes)
        {
            calls::Answer::Intake(Ok(rows)) => {
                show_taken(rt, name, rows)?;
                self.list_rows(rt, &bytes, &outcomes)
            }
            calls::Answer::Intake(Err(fault)) => Ok(show_refused(rt, name, fault)?),
            calls::Answer::Withdrawn(_) => Ok(()),
        }
    }

    // Lists the records that a file has brought, and shows the rows that were turned away.
    fn list_rows(&mut self, rt: &HostRuntime, bytes: &[u8], outcomes: &[u8]) -> Result<(), Why> {
        let Ok(file) = check(bytes) else {
            return Ok(());
        };
        let origin = file.header.origin;
        for (at, (row, code)) in (1..OUTCOMES).zip(Rows::new(bytes).zip(outcomes)) {
            match row {
                _ if *code != 0 => show_turned_away(rt, at, row, *code)?,
                Row::Presentation(presentation) => self.records.push(Listed {
                    origin,
                    presentation,
                })?,
                Row::Return(_) => {}
            }
        }
        Ok(())
    }

    fn clear(&mut self, rt: &HostRuntime, words: &[&str]) -> Result<(), Why> {
        let [rule, source] = words else {
            return Err(Why::Misread(Misread::Usage("clear RULE SOURCE")));
        };
        let ranking = by_name(&RANKINGS, rule).ok_or(Misread::Rule)?;
        let kind = by_name(&SOURCES, source).ok_or(Misread::Source)?;
        if let calls::Answer::Withdrawn(count) = self.console.settle(ranking, kind) {
            println!(rt; "clearing by {rule} and {source}: records withdrawn {count}")?;
        }
        show_all_withdrawn(rt, self.session(), &self.records)?;
        Ok(show_positions(rt, self.session())?)
    }
}
