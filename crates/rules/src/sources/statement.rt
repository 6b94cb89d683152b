// The statement: the balance of each member, as last reported.
ghost use Rattle.std.specs.Prelude.{◌≡◌, ℕ, [], MatchResult};
ghost use Rattle.rules.specs.Reports.{Reported, answer_to};
ghost use Rattle.rules.specs.Sources.{balances_in, is_balance, statement_cover};
ghost use Rattle.std.proofs.Common.{rules};

use crate::book::{Book, Report};
use crate::cover::CoverSource;
use crate::sources::is_member_code;
use terms::refusal::Refusal;

#[derive(Clone, Copy)]
pub struct Statement {
    book: Book,
}

impl Statement {
    pub const BALANCE_LIMIT: u64 = 1_000_000_000_000_000;

    // A statement that knows of no member.
    pub fn new() -> Self
        ensures held { balances_in result ≡ [] }
        ensures cover { (code : ℕ) → statement_cover result code ≡ 0 }
    {
        Statement { book: Book::new() }
    }

    // Whether code and balance are within the limits of a report.
    fn takes(code: u16, balance: u64) -> bool
        ensures { result ≡ is_balance code balance }
    {
        is_member_code(code) && balance <= Self::BALANCE_LIMIT
    }

    // Takes a member's balance in place of the one reported before.
    pub fn report(&mut self, code: u16, balance: u64) -> Result<(), Refusal>
        ensures answer { result ≡ answer_to (is_balance code balance) code (balances_in self.old) }
        ensures after { MatchResult result (λ _. Reported code balance (balances_in self.old) (balances_in self.new)) (λ _. self.new ≡ self.old) }
    {
        if !Self::takes(code, balance) {
            return Err(Refusal::ReportLimits);
        }
        self.book.enter(Report {
            code,
            amount: balance,
        })
    }
}

impl CoverSource for Statement {
    ghost covers = { statement_cover };

    ghost limited = { Prim.search rules };

    fn cover(&self, code: u16) -> u64 {
        self.book.amount(code)
    }
}
