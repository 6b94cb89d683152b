// Taking a file in: the file check, the session's own checks, and then its rows.
ghost use Rattle.rules.specs.Meaning.{Meaning};
ghost use Rattle.session.specs.Files.{Stood, answered, ledger_after, verdict, written};
ghost use Rattle.session.specs.Ledger.{ledger_of};
ghost use Rattle.std.specs.Prelude.{◌≡◌, length};

use crate::session::{Session, Taken};
use memberfile::check::check;
use rules::instrument::Instrument;
use terms::fault::Fault;

impl Session {
    // Takes the file in, or refuses it; an accepted file leaves one outcome byte for each of its rows.
    pub fn intake<I: Instrument>(
        &mut self,
        instrument: &I,
        file: &[u8],
        out: &mut [u8],
    ) -> Result<Taken, Fault>
        ensures answer { result ≡ answered (ledger_of self.old) (I.Instrument.meaning instrument.now) (verdict (ledger_of self.old) (I.Instrument.meaning instrument.now) file.now (length out.old)) }
        ensures ledger { ledger_of self.new ≡ ledger_after (ledger_of self.old) (I.Instrument.meaning instrument.now) (verdict (ledger_of self.old) (I.Instrument.meaning instrument.now) file.now (length out.old)) }
        ensures out { out.new ≡ written (ledger_of self.old) (I.Instrument.meaning instrument.now) (verdict (ledger_of self.old) (I.Instrument.meaning instrument.now) file.now (length out.old)) out.old }
        ensures stood { Stood (verdict (ledger_of self.old) (I.Instrument.meaning instrument.now) file.now (length out.old)) self.old self.new }
    {
        let summary = check(file)?;
        let sender = self.admit(instrument, summary, out.len())?;
        let taken = self.take_rows(instrument, sender, file, out);
        self.numbers[sender.place as usize].enter(summary.header.kind, summary.header.number);
        self.cleared = false;
        Ok(taken)
    }
}
