// The engine run on the cases: it settles each as the table says.
ghost use Rattle.std.specs.Prelude.{◌≡◌, ℕ, [], ◌∷◌, map, length};
ghost use Rattle.cases.specs.Settled.{numbered, row_of};
ghost use Rattle.clearing.specs.Positions.{position};
ghost use Rattle.clearing.specs.Table.{entries, front, kept};

use crate::filing::{PLACES, Stated, held_of, places_of, rule_of};
use crate::table::Case;
use clearing::netting::clear_by;
use clearing::place::Place;
use clearing::positions::position;

// The roll of the three members.
pub const ROLL: [u16; 3] = [2, 7, 9];

// A case as the engine settled it, with the positions of the members 2, 7 and 9. The first `held` places are the case's, in an array
// and no `Vec`, so that a case allocates nothing.
#[derive(Clone, Copy)]
pub struct Outcome {
    pub places: [Place; PLACES],
    pub held: usize,
    pub positions: [i64; 3],
}

// The positions of the three members.
fn positions_of(places: &[Place], held: usize) -> [i64; 3]
    ensures { result ≡ map (position (entries (front held places.now)) (kept (front held places.now))) (0 ∷ 1 ∷ 2 ∷ []) }
{
    [0, 1, 2].map(|member| position(places, held, member))
}

// Clears the entries of a case.
pub fn run(case: Case) -> Outcome
    ensures held { result.held ≡ length (row_of case).entries }
    ensures entries { entries (front result.held result.places) ≡ (row_of case).entries }
    ensures kept { (i : ℕ) → kept (front result.held result.places) i ≡ numbered (row_of case).kept i }
    ensures positions { result.positions ≡ (row_of case).positions }
{
    let mut places = places_of(case);
    let held = held_of(case);
    let rule = rule_of(case);
    let _ = clear_by(&rule, &Stated(case), &ROLL, &mut places, held);
    let positions = positions_of(&places, held);
    Outcome {
        places,
        held,
        positions,
    }
}
