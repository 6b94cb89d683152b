// Writing the result file of a session into the caller's buffer.
ghost use Rattle.std.specs.Prelude.{◌≡◌, true, ◌++◌, length, drop, MatchResult};
ghost use Rattle.result.specs.Agreement.{Agrees};
ghost use Rattle.result.specs.Answers.{result_answer, result_bytes};
ghost use Rattle.result.specs.Layout.{FitsTotals};
ghost use Rattle.result.specs.Value.{result_of};
ghost use Rattle.session.specs.Parts.{stands_cleared};

use crate::cleared::Cleared;
use session::session::Session;
use terms::refusal::Refusal;

// Writes the result file at the front of the buffer and gives its length; refused, it moves nothing.
#[tactic(auto, using(crate::proofs::Answered::totals_fit, crate::proofs::Agreeing::result_agrees))]
pub fn write_result(session: &Session, out: &mut [u8]) -> Result<usize, Refusal>
    ensures answer { result ≡ result_answer session.now (length out.old) }
    ensures totals { FitsTotals (result_of session.now) }
    ensures agrees { stands_cleared session.now ≡ true → Agrees session.now }
    ensures buffer { MatchResult result (λ n. out.new ≡ result_bytes session.now ++ drop n out.old) (λ _. out.new ≡ out.old) }
{
    if !session.is_cleared() {
        return Err(Refusal::NotCleared);
    }
    let sheet = session.sheet();
    let cleared = Cleared {
        session,
        sheet: &sheet,
    };
    let len = cleared.len();
    if out.len() < len {
        return Err(Refusal::BufferShort);
    }
    cleared.write(out);
    Ok(len)
}
