// One call, and a list of calls upon a newly opened session.
ghost use Rattle.std.specs.Prelude.{◌≡◌, ℕ, min, List, map, length, take, drop, vec_len};
ghost use Rattle.desk.specs.Books.{clears, sends};
ghost use Rattle.desk.specs.Calls.{meaning};
ghost use Rattle.desk.specs.Runs.{Leaves, Makes};
ghost use Rattle.terms.specs.Dockets.{day_of};

use crate::calls::{Answer, Call};
use clearing::place::Place;
use rules::cover::CoverSource;
use rules::instrument::Instrument;
use rules::ranking::Ranking;
use session::session::Session;
use terms::docket::Docket;

// Takes a file in with the first `room` bytes of the outcome buffer.
fn take_in<I: Instrument>(
    s: &mut Session,
    instrument: &I,
    file: &[u8],
    room: usize,
    out: &mut [u8],
) -> Answer
    ensures { Makes (sends (I.Instrument.meaning instrument.now) file.now (min room (length out.old))) s.old s.new out.old out.new result }
{
    let n = room.min(out.len());
    Answer::Intake(s.intake(instrument, file, &mut out[0..n]))
}

// Clears the session.
fn settle<R: Ranking, C: CoverSource>(s: &mut Session, rule: &R, source: &C) -> Answer
    ensures { (out : List ℕ) → Makes (clears (R.Ranking.ahead rule.now) (C.CoverSource.covers source.now)) s.old s.new out out result }
{
    Answer::Withdrawn(s.clear(rule, source))
}

// Makes one call: whatever calls were made upon the session before, the promise stands behind this one too.
pub fn act<I: Instrument, R: Ranking, C: CoverSource>(
    s: &mut Session,
    call: &Call<'_, I, R, C>,
    out: &mut [u8],
) -> Answer
    ensures { Makes (meaning I.Instrument.meaning R.Ranking.ahead C.CoverSource.covers (length out.old) call.now) s.old s.new out.old out.new result }
{
    match call {
        Call::Intake {
            instrument,
            file,
            room,
        } => take_in(s, *instrument, *file, *room, out),
        Call::Clear { rule, source } => settle(s, *rule, *source),
    }
}

// Opens a session, and makes as many of the calls as there are places for answers.
pub fn replay<I: Instrument, R: Ranking, C: CoverSource>(
    docket: Docket,
    places: Vec<Place>,
    calls: &[Call<'_, I, R, C>],
    out: &mut [u8],
    answers: &mut [Answer],
) -> (Session, usize)
    ensures made { result.1 ≡ min (length calls.now) (length answers.old) }
    ensures left { Leaves (day_of docket) (min (vec_len places) 4096) (map (meaning I.Instrument.meaning R.Ranking.ahead C.CoverSource.covers (length out.old)) (take result.1 calls.now)) result.0 (take result.1 answers.new) out.old out.new }
    ensures rest { drop result.1 answers.new ≡ drop result.1 answers.old }
{
    let mut s = Session::open(docket, places);
    let n = calls.len().min(answers.len());
    // No `zip` with `answers.iter_mut()`: behind such an adapter a proof knows nothing of what was written.
    for (i, call) in calls[..n].iter().enumerate() {
        answers[i] = act(&mut s, call, out);
    }
    (s, n)
}
