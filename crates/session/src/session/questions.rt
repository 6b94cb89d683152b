// Questions to a session; none changes it.
ghost use Rattle.std.specs.Prelude.{◌≡◌, ◌≤◌, length};
ghost use Rattle.session.specs.Parts.{docket_of, table_of};
ghost use Rattle.session.specs.Questions.{bilateral_answer, cover_answer, listed_place, mark_answer, position_answer};
ghost use Rattle.table.specs.Entries.{entries_of};

use crate::session::Session;
use crate::session::mark::Mark;
use terms::docket::Docket;
use terms::refusal::Refusal;

impl Session {
    // The docket that the session was opened with.
    pub fn docket(&self) -> &Docket
        ensures { result.now ≡ docket_of self.now }
    {
        &self.docket
    }

    // How many records were taken in.
    pub fn held(&self) -> usize
        ensures value { result ≡ length (entries_of (table_of self.now)) }
        ensures few { result ≤ 4096 }
    {
        self.table.held()
    }

    // The mark of a session number, from 1.
    pub fn mark(&self, number: usize) -> Result<Mark, Refusal>
        ensures { result ≡ mark_answer self.now number }
    {
        let at = number.checked_sub(1).ok_or(Refusal::NotListed)?;
        let entry = self.table.entry_at(at).ok_or(Refusal::NotListed)?;
        if !self.cleared {
            return Ok(Mark::Unmarked);
        }
        if entry.returned {
            return Ok(Mark::Returned);
        }
        if self.table.is_kept(at) {
            Ok(Mark::Kept)
        } else {
            Ok(Mark::Withdrawn)
        }
    }

    // The place of a member that a question names, while the session stands cleared.
    fn listed_place(&self, code: u16) -> Result<u8, Refusal>
        ensures { result ≡ listed_place self.now code }
    {
        if !self.cleared {
            return Err(Refusal::NotCleared);
        }
        self.place_of(code).ok_or(Refusal::NotListed)
    }

    // The position of a member: worth received minus worth paid, over kept records.
    pub fn position(&self, code: u16) -> Result<i64, Refusal>
        ensures { result ≡ position_answer self.now code }
    {
        let place = self.listed_place(code)?;
        Ok(self.table.position(place))
    }

    // The position of one member towards another, seen from the first.
    pub fn bilateral(&self, a: u16, b: u16) -> Result<i64, Refusal>
        ensures { result ≡ bilateral_answer self.now a b }
    {
        let first = self.listed_place(a)?;
        let second = self.listed_place(b)?;
        Ok(self.table.bilateral(first, second))
    }

    // The cover that the last clearing stored for a member.
    pub fn cover(&self, code: u16) -> Result<u64, Refusal>
        ensures { result ≡ cover_answer self.now code }
    {
        let place = self.listed_place(code)?;
        Ok(self.covers.amount(place))
    }
}
