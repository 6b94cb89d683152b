// A file against the session, before its rows are looked at.
ghost use Rattle.std.specs.Prelude.{◌≡◌, ◌+◌, ◌<◌, not, ◌&&◌, IfSome, ◌==◌};
ghost use Rattle.rules.specs.Meaning.{Meaning};
ghost use Rattle.session.specs.Files.{admitted, file_refusal, is_of_day, is_returns, sender_of};
ghost use Rattle.session.specs.Ledger.{ledger_of, number_of, numbered};
ghost use Rattle.session.specs.Parts.{docket_of};
ghost use Rattle.session.specs.Refusals.{unless};
ghost use Rattle.terms.specs.Dockets.{day_of, roll_of};
ghost use Rattle.terms.specs.Rolls.{place_in};

use crate::session::{FileNumbers, Sender, Session};
use memberfile::check::Summary;
use memberfile::header::Header;
use rules::instrument::Instrument;
use terms::fault::Fault;
use terms::file_kind::FileKind;
use terms::refusal::Refusal;

impl FileNumbers {
    // The last accepted number of that kind.
    fn last(&self, kind: FileKind) -> u8
        ensures { result ≡ number_of kind self.now }
    {
        match kind {
            FileKind::Presentations => self.presentations,
            FileKind::Returns => self.returns,
        }
    }

    // Enters the number of an accepted file.
    pub(crate) fn enter(&mut self, kind: FileKind, number: u8)
        ensures { self.new ≡ numbered kind number self.old }
    {
        match kind {
            FileKind::Presentations => self.presentations = number,
            FileKind::Returns => self.returns = number,
        }
    }
}

// Whether a file of that kind carries returns that the instrument does not take.
fn is_untaken(kind: FileKind, takes_returns: bool) -> bool
    ensures { result ≡ (is_returns kind && not takes_returns) }
{
    match kind {
        FileKind::Presentations => false,
        FileKind::Returns => !takes_returns,
    }
}

// Whether a file number is one above the last.
fn is_next(number: u8, last: u8) -> bool
    ensures { result ≡ (number == last + 1) }
{
    u16::from(number) == u16::from(last) + 1
}

impl Session {
    // Whether date, cycle and currency of the header are the session's.
    fn is_of_day(&self, header: Header) -> bool
        ensures { result ≡ is_of_day (day_of (docket_of self.now)) header }
    {
        header.date == self.docket.date()
            && header.cycle == self.docket.cycle()
            && header.currency == self.docket.currency()
    }

    // The place on the roll of a member.
    pub(crate) fn place_of(&self, code: u16) -> Option<u8>
        ensures value { result ≡ place_in (roll_of (docket_of self.now)) code }
        ensures low { IfSome result (λ place. place < 64) }
    {
        let place = self.docket.place_of(code)?;
        Some(place as u8)
    }

    // The sender of a file that may be taken in, or why it may not.
    fn judge_file<I: Instrument>(
        &self,
        instrument: &I,
        file: Summary,
        room: usize,
    ) -> Result<Sender, Refusal>
        ensures { result ≡ unless (file_refusal (ledger_of self.now) (I.Instrument.meaning instrument.now) file room) (sender_of (ledger_of self.now) file.header) }
    {
        let header = file.header;
        if !self.is_of_day(header) {
            return Err(Refusal::NotThisSession);
        }
        let code = header.origin;
        let place = self.place_of(code).ok_or(Refusal::OriginOffRoll)?;
        let last = self.numbers[place as usize].last(header.kind);
        if !is_next(header.number, last) {
            return Err(Refusal::FileNumber);
        }
        if is_untaken(header.kind, instrument.takes_returns()) {
            return Err(Refusal::ReturnsNotTaken);
        }
        if self.table.capacity() < self.table.held() + usize::from(file.presentations) {
            return Err(Refusal::CapacityExceeded);
        }
        if room < usize::from(file.rows) {
            return Err(Refusal::OutcomesShort);
        }
        Ok(Sender { code, place })
    }

    // The sender of a file that may be taken in, or the fault of the whole file.
    pub(crate) fn admit<I: Instrument>(
        &self,
        instrument: &I,
        file: Summary,
        room: usize,
    ) -> Result<Sender, Fault>
        ensures { result ≡ admitted (file_refusal (ledger_of self.now) (I.Instrument.meaning instrument.now) file room) (sender_of (ledger_of self.now) file.header) }
    {
        self.judge_file(instrument, file, room)
            .map_err(Fault::in_session)
    }
}
