// Reading a book, and entering a report into it.
ghost use Rattle.std.specs.Prelude.{◌≡◌, ◌≤◌, [], MatchOption, MatchResult, nat_lt};
ghost use Rattle.rules.specs.Books.{held_in};
ghost use Rattle.rules.specs.Reports.{FirstFor, Misses, Reported, amount_of, room_for};

use crate::book::{Book, CODES, Report};
use terms::refusal::Refusal;

// Whether a book has such a place.
fn is_place(at: usize) -> bool
    ensures { result ≡ nat_lt at 64 }
{
    at < CODES
}

impl Book {
    // A book with no report.
    pub fn new() -> Self
        ensures { held_in result ≡ [] }
    {
        let blank = Report { code: 0, amount: 0 };
        Book {
            reports: [blank; CODES],
            held: 0,
        }
    }

    // The place of the report for the code, if one is in use.
    fn place_of(&self, code: u16) -> Option<usize>
        ensures { MatchOption result (Misses code self.now.reports self.now.held) (λ at. FirstFor code self.now.reports self.now.held at) }
    {
        self.reports[..self.held]
            .iter()
            .position(|report| report.code == code)
    }

    // The amount for the code, 0 where none is reported.
    pub fn amount(&self, code: u16) -> u64
        ensures { result ≡ amount_of code (held_in self.now) }
    {
        match self.place_of(code) {
            Some(at) => self.reports[at].amount,
            None => 0,
        }
    }

    // Takes the report in place of an earlier one for its code, if there is room for the code.
    pub(crate) fn enter(&mut self, report: Report) -> Result<(), Refusal>
        requires { report.amount ≤ 1_000_000_000_000_000 }
        ensures answer { result ≡ room_for report.code (held_in self.old) }
        ensures after { MatchResult result (λ _. Reported report.code report.amount (held_in self.old) (held_in self.new)) (λ _. self.new ≡ self.old) }
    {
        let at = self.place_of(report.code).unwrap_or(self.held);
        if !is_place(at) {
            return Err(Refusal::TooManyReports);
        }
        self.reports[at] = report;
        self.held = self.held.max(at + 1);
        Ok(())
    }
}
