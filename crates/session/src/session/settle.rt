// The clearing of a session.
ghost use Rattle.clearing.specs.Table.{cover_on_roll};
ghost use Rattle.session.specs.Parts.{docket_of};
ghost use Rattle.rules.specs.Order.{Order};
ghost use Rattle.session.specs.Ledger.{ledger_of};
ghost use Rattle.session.specs.Settled.{Settled, withdrawn_in};
ghost use Rattle.terms.specs.Dockets.{roll_of};
ghost use Rattle.std.specs.Prelude.{◌≡◌};

use crate::session::Session;
use clearing::covers::Covers;
use rules::cover::CoverSource;
use rules::ranking::Ranking;

impl Session {
    // Asks the source for each member's cover, keeps the greatest lawful covered choice, and answers how many records it withdrew.
    pub fn clear<R: Ranking, C: CoverSource>(&mut self, rule: &R, source: &C) -> usize
        ensures ledger { ledger_of self.new ≡ ledger_of self.old }
        ensures settled { Settled (R.Ranking.ahead rule.now) (cover_on_roll (C.CoverSource.covers source.now) (roll_of (docket_of self.old))) self.new }
        ensures count { result ≡ withdrawn_in self.new }
    {
        let covers = Covers::gather(source, self.docket.roll());
        let withdrawn = self.table.clear(rule, &covers);
        self.covers = covers;
        self.cleared = true;
        withdrawn
    }
}
