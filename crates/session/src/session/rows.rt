// The rows of an accepted file, judged and taken one by one.
ghost use Rattle.std.specs.Prelude.{◌≡◌, ◌+◌, ◌<◌, ◌≤◌, IfOk, IsTrue, length};
ghost use Rattle.session.specs.Parts.{docket_of, table_of};
ghost use Rattle.rules.specs.Meaning.{Meaning};
ghost use Rattle.session.specs.Ledger.{ledger_of, with_entries};
ghost use Rattle.memberfile.specs.Walk.{rows_in};
ghost use Rattle.session.specs.Files.{counted};
ghost use Rattle.session.specs.Rows.{after_row, after_rows, entered, entries_by, is_cause, outcome_of, outcomes, presentation_taken, put_in, reference_used, return_taken, row_taken, same_sums, struck_in};
ghost use Rattle.table.specs.Entries.{entries_of, is_within};
ghost use Rattle.terms.specs.Dockets.{day_of};
ghost use Rattle.wire.specs.Rows.{presentations, presented};

use crate::session::{Sender, Session, Taken};
use clearing::entry::Entry;
use memberfile::rows::Rows;
use rules::instrument::Instrument;
use terms::refusal::Refusal;
use wire::row::Row;
use wire::values::{Presentation, Return};

// The causes that a return may have are 1 to 20, but for 12, which is the house's own for a withdrawn record.
const CAUSE_MOST: u8 = 20;

const CAUSE_WITHDRAWN: u8 = 12;

fn is_cause(cause: u8) -> bool
    ensures { result ≡ is_cause cause }
{
    1 <= cause && cause <= CAUSE_MOST && cause != CAUSE_WITHDRAWN
}

fn same_sums(entry: Entry, row: Return) -> bool
    ensures { result ≡ same_sums entry row }
{
    entry.amount == row.amount && entry.commission == row.commission
}

impl Session {
    // Whether the sender used the reference before, or it is 0.
    fn is_used(&self, sender: Sender, reference: u32) -> bool
        ensures { result ≡ reference_used sender (entries_of (table_of self.now)) reference }
    {
        reference == 0 || self.table.find(sender.code, reference).is_some()
    }

    // The entry of a presentation, or its code.
    fn judge_presentation<I: Instrument>(
        &self,
        instrument: &I,
        sender: Sender,
        p: Presentation,
    ) -> Result<Entry, Refusal>
        ensures value { result ≡ presentation_taken (day_of (docket_of self.now)) (I.Instrument.meaning instrument.now) sender (entries_of (table_of self.now)) p }
        ensures within { IfOk result (λ entry. IsTrue (is_within entry)) }
    {
        let other = self.place_of(p.other).ok_or(Refusal::OtherMember)?;
        if p.other == sender.code {
            return Err(Refusal::OtherMember);
        }
        let worth = instrument.admit(
            p.record_type,
            self.docket.currency(),
            p.amount,
            p.commission,
        )?;
        if self.is_used(sender, p.reference) {
            return Err(Refusal::ReferenceUsed);
        }
        let pays = instrument.origin_pays();
        Ok(Entry {
            record_type: p.record_type,
            origin: sender.code,
            other: p.other,
            reference: p.reference,
            amount: p.amount,
            commission: p.commission,
            worth,
            payer: if pays { sender.place } else { other },
            receiver: if pays { other } else { sender.place },
            returnable: instrument.takes_returns(),
            returned: false,
        })
    }
}

impl Session {
    // The place of the record that a return takes back, or the row's code.
    fn judge_return(&self, sender: Sender, row: Return) -> Result<usize, Refusal>
        ensures { result ≡ return_taken sender (entries_of (table_of self.now)) row }
    {
        let at = self
            .table
            .find(row.originator, row.reference)
            .ok_or(Refusal::NoSuchRecord)?;
        let Some(entry) = self.table.entry_at(at) else {
            unreachable()
        };
        if entry.other != sender.code || !entry.returnable {
            return Err(Refusal::NoSuchRecord);
        }
        if entry.returned {
            return Err(Refusal::AlreadyReturned);
        }
        if !same_sums(entry, row) {
            return Err(Refusal::ReturnDiffers);
        }
        if !is_cause(row.cause) {
            return Err(Refusal::ReturnCause);
        }
        Ok(at)
    }

    // Judges a presentation and takes it in where it has no code.
    fn take_presentation<I: Instrument>(
        &mut self,
        instrument: &I,
        sender: Sender,
        p: Presentation,
    ) -> Result<(), Refusal>
        requires { length (ledger_of self.old).entries < (ledger_of self.old).capacity }
        ensures outcome { outcome_of result ≡ outcome_of (presentation_taken (ledger_of self.old).day (I.Instrument.meaning instrument.now) sender (ledger_of self.old).entries p) }
        ensures ledger { ledger_of self.new ≡ with_entries (ledger_of self.old) (entries_by (ledger_of self.old).entries (put_in (ledger_of self.old).entries (presentation_taken (ledger_of self.old).day (I.Instrument.meaning instrument.now) sender (ledger_of self.old).entries p))) }
    {
        let entry = self.judge_presentation(instrument, sender, p)?;
        let _ = self.table.put(entry);
        Ok(())
    }

    // Judges a return and takes the record back where it has no code.
    fn take_return(&mut self, sender: Sender, row: Return) -> Result<(), Refusal>
        ensures outcome { outcome_of result ≡ outcome_of (return_taken sender (ledger_of self.old).entries row) }
        ensures ledger { ledger_of self.new ≡ with_entries (ledger_of self.old) (entries_by (ledger_of self.old).entries (struck_in (ledger_of self.old).entries (return_taken sender (ledger_of self.old).entries row))) }
    {
        let at = self.judge_return(sender, row)?;
        self.table.strike(at);
        Ok(())
    }

    // Judges a row and takes it where it has no code.
    #[tactic(auto, using(crate::proofs::Going::outcome_put, crate::proofs::Going::outcome_struck))]
    fn take_row<I: Instrument>(
        &mut self,
        instrument: &I,
        sender: Sender,
        row: Row,
    ) -> Result<(), Refusal>
        requires { length (ledger_of self.old).entries + presentations row ≤ (ledger_of self.old).capacity }
        ensures outcome { outcome_of result ≡ outcome_of (row_taken (ledger_of self.old).day (I.Instrument.meaning instrument.now) sender (ledger_of self.old).entries row) }
        ensures ledger { ledger_of self.new ≡ with_entries (ledger_of self.old) (after_row (ledger_of self.old).day (I.Instrument.meaning instrument.now) sender (ledger_of self.old).entries row) }
    {
        match row {
            Row::Presentation(p) => self.take_presentation(instrument, sender, p),
            Row::Return(r) => self.take_return(sender, r),
        }
    }

    // Takes the rows of a file, one outcome byte for each: 0, or the number of its refusal.
    pub(crate) fn take_rows<I: Instrument>(
        &mut self,
        instrument: &I,
        sender: Sender,
        file: &[u8],
        out: &mut [u8],
    ) -> Taken
        requires held { length (ledger_of self.old).entries + presented (rows_in file.now) ≤ (ledger_of self.old).capacity }
        requires room { length (rows_in file.now) ≤ length out.old }
        ensures counts { result ≡ counted (outcomes (ledger_of self.old).day (I.Instrument.meaning instrument.now) sender (ledger_of self.old).entries (rows_in file.now)) }
        ensures ledger { ledger_of self.new ≡ with_entries (ledger_of self.old) (after_rows (ledger_of self.old).day (I.Instrument.meaning instrument.now) sender (ledger_of self.old).entries (rows_in file.now)) }
        ensures out { out.new ≡ entered (ledger_of self.old).day (I.Instrument.meaning instrument.now) sender (ledger_of self.old).entries (rows_in file.now) out.old }
    {
        let mut counts = Taken {
            taken: 0,
            turned_away: 0,
        };
        // No `zip` with `out.iter_mut()`: behind such an adapter a proof knows nothing of what was written.
        for (at, row) in Rows::new(file).enumerate() {
            match self.take_row(instrument, sender, row) {
                Ok(()) => {
                    out[at] = 0;
                    counts.taken += 1;
                }
                Err(refusal) => {
                    out[at] = u8::from(refusal);
                    counts.turned_away += 1;
                }
            }
        }
        counts
    }
}
