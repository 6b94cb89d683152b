// The commands upon the session: opening it, intakes and clearings, and questions.
use crate::answer::Answer;
use crate::console::Console;
use crate::files::{buffer, bytes_of};
use crate::misread::Misread;
use crate::names::{INSTRUMENTS, RANKINGS, SOURCES, SourceKind, by_name};
use crate::words::number;
use clearing::place::{CAPACITY, Place};
use desk::calls;
use desk::calls::Call;
use desk::desk::act;
use result::file::write_result;
use rules::cover::CoverSource;
use rules::instrument::Instrument;
use rules::instruments::AnyInstrument;
use rules::ranking::Ranking;
use rules::rankings::AnyRanking;
use rules::sources::AnySource;
use session::session::Session;
use std::alloc::Global;

// Makes an intake upon the session. The types are parameters, since no proof is made where a call is built of a source by its own type.
fn call_intake<'a, I: Instrument + Drop, R: Ranking + Drop, C: CoverSource + Drop>(
    session: &mut Session,
    instrument: &'a I,
    file: &'a [u8],
    room: usize,
    out: &mut [u8],
) -> calls::Answer {
    let call: Call<'_, I, R, C> = Call::Intake {
        instrument,
        file,
        room,
    };
    act(session, &call, out)
}

// Makes a clearing upon the session.
fn call_clear<'a, I: Instrument + Drop, R: Ranking + Drop, C: CoverSource + Drop>(
    session: &mut Session,
    rule: &'a R,
    source: &'a C,
) -> calls::Answer {
    let call: Call<'_, I, R, C> = Call::Clear { rule, source };
    act(session, &call, &mut [])
}

impl Console {
    // Opens a session of the docket as it stands. It uses no place beyond its greatest capacity, so that no more are made.
    pub fn open(&mut self, heap: Global, places: usize) -> Result<(), Misread> {
        let table = vec![in heap; Place::blank(); places.min(CAPACITY)]?;
        self.session = Session::open(self.docket, table);
        Ok(())
    }

    // Takes a file in, with so many bytes of the outcome buffer.
    pub fn take_in(
        &mut self,
        instrument: AnyInstrument,
        file: &[u8],
        room: usize,
        out: &mut [u8],
    ) -> calls::Answer {
        call_intake::<AnyInstrument, AnyRanking, AnySource>(
            &mut self.session,
            &instrument,
            file,
            room,
            out,
        )
    }

    // Clears the session by the source of that kind as it stands.
    pub fn settle(&mut self, rule: AnyRanking, kind: SourceKind) -> calls::Answer {
        let source = match kind {
            SourceKind::Statement => AnySource::Statement(self.statement),
            SourceKind::Pledges => AnySource::Pledges(self.pledges),
        };
        call_clear::<AnyInstrument, AnyRanking, AnySource>(&mut self.session, &rule, &source)
    }

    pub fn session(&self) -> &Session {
        &self.session
    }

    pub(crate) fn open_session(&mut self, heap: Global, words: &[&str]) -> Result<Answer, Misread> {
        let [places] = words else {
            return Err(Misread::Usage("open PLACES"));
        };
        self.open(heap, number(places)?)?;
        Ok(Answer::Done)
    }

    pub(crate) fn intake(&mut self, rt: &HostRuntime, words: &[&str]) -> Result<Answer, Misread> {
        let [instrument, room, file] = words else {
            return Err(Misread::Usage("intake INSTRUMENT ROOM FILE"));
        };
        let instrument = by_name(&INSTRUMENTS, instrument).ok_or(Misread::Instrument)?;
        let room = number(room)?;
        let bytes = bytes_of(rt, file)?;
        let mut outcomes = buffer(rt.alloc(), room)?;
        Ok(
            match self.take_in(instrument, &bytes, room, &mut outcomes) {
                calls::Answer::Intake(res) => Answer::Intake(res, outcomes),
                calls::Answer::Withdrawn(count) => Answer::Withdrawn(count),
            },
        )
    }

    pub(crate) fn clear(&mut self, words: &[&str]) -> Result<Answer, Misread> {
        let [rule, source] = words else {
            return Err(Misread::Usage("clear RULE SOURCE"));
        };
        let rule = by_name(&RANKINGS, rule).ok_or(Misread::Rule)?;
        let kind = by_name(&SOURCES, source).ok_or(Misread::Source)?;
        Ok(match self.settle(rule, kind) {
            calls::Answer::Withdrawn(count) => Answer::Withdrawn(count),
            calls::Answer::Intake(Err(fault)) => Answer::Refused(fault.cause),
            calls::Answer::Intake(Ok(_)) => Answer::Done,
        })
    }

    pub(crate) fn position(&self, words: &[&str]) -> Result<Answer, Misread> {
        let [code] = words else {
            return Err(Misread::Usage("position CODE"));
        };
        Ok(self.session.position(number(code)?).into())
    }

    pub(crate) fn bilateral(&self, words: &[&str]) -> Result<Answer, Misread> {
        let [first, second] = words else {
            return Err(Misread::Usage("bilateral CODE CODE"));
        };
        Ok(
            self.session
                .bilateral(number(first)?, number(second)?)
                .into(),
        )
    }

    pub(crate) fn cover(&self, words: &[&str]) -> Result<Answer, Misread> {
        let [code] = words else {
            return Err(Misread::Usage("cover CODE"));
        };
        Ok(self.session.cover(number(code)?).into())
    }

    pub(crate) fn mark(&self, words: &[&str]) -> Result<Answer, Misread> {
        let [session_number] = words else {
            return Err(Misread::Usage("mark NUMBER"));
        };
        Ok(self.session.mark(number(session_number)?).into())
    }

    pub(crate) fn result(&self, heap: Global, words: &[&str]) -> Result<Answer, Misread> {
        let [size] = words else {
            return Err(Misread::Usage("result SIZE"));
        };
        let mut bytes = buffer(heap, number(size)?)?;
        let written = write_result(&self.session, &mut bytes);
        Ok(Answer::Written(written, bytes))
    }
}
