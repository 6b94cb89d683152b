// Pledges: the balance of each member and a part of what it has pledged, as last reported.
ghost use Rattle.std.specs.Prelude.{◌≡◌, ℕ, ◌≤◌, [], MatchResult};
ghost use Rattle.rules.specs.Reports.{Reported, answer_to};
ghost use Rattle.rules.specs.Sources.{is_pledge, pledged, pledges_cover, pledges_in};
ghost use Rattle.std.proofs.Common.{rules};

use crate::book::{Book, Report};
use crate::cover::CoverSource;
use crate::sources::is_member_code;
use terms::refusal::Refusal;

// Not one type with the statement: a report has other fields and another rule here, and only the book is the same.
#[derive(Clone, Copy)]
pub struct Pledges {
    book: Book,
}

impl Pledges {
    pub const BALANCE_LIMIT: u64 = 100_000_000_000_000;

    pub const PLEDGE_LIMIT: u64 = 10_000_000_000_000;
    // The whole of a pledge, in percent.
    pub const WHOLE: u8 = 100;

    // Pledges that know of no member.
    pub fn new() -> Self
        ensures held { pledges_in result ≡ [] }
        ensures cover { (code : ℕ) → pledges_cover result code ≡ 0 }
    {
        Pledges { book: Book::new() }
    }

    // Whether code and values are within the limits of a report.
    fn takes(code: u16, balance: u64, pledge: u64, percent: u8) -> bool
        ensures { result ≡ is_pledge code balance pledge percent }
    {
        is_member_code(code)
            && balance <= Self::BALANCE_LIMIT
            && pledge <= Self::PLEDGE_LIMIT
            && percent <= Self::WHOLE
    }

    // The product comes first, so that it is rounded down only once.
    fn amount(balance: u64, pledge: u64, percent: u8) -> u64
        requires balance { balance ≤ 100_000_000_000_000 }
        requires pledge { pledge ≤ 10_000_000_000_000 }
        requires percent { percent ≤ 100 }
        ensures { result ≡ pledged balance pledge percent }
    {
        balance + pledge * percent as u64 / Self::WHOLE as u64
    }

    // Takes a member's balance and pledge in place of those reported before.
    pub fn report(
        &mut self,
        code: u16,
        balance: u64,
        pledge: u64,
        percent: u8,
    ) -> Result<(), Refusal>
        ensures answer { result ≡ answer_to (is_pledge code balance pledge percent) code (pledges_in self.old) }
        ensures after { MatchResult result (λ _. Reported code (pledged balance pledge percent) (pledges_in self.old) (pledges_in self.new)) (λ _. self.new ≡ self.old) }
    {
        if !Self::takes(code, balance, pledge, percent) {
            return Err(Refusal::ReportLimits);
        }
        let amount = Self::amount(balance, pledge, percent);
        self.book.enter(Report { code, amount })
    }
}

impl CoverSource for Pledges {
    ghost covers = { pledges_cover };

    ghost limited = { Prim.search rules };

    fn cover(&self, code: u16) -> u64 {
        self.book.amount(code)
    }
}
