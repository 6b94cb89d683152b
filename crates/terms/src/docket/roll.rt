// Rolls of member codes.
ghost use Rattle.terms.specs.Rolls.{is_roll, place_in, rises_from};
ghost use Rattle.std.specs.Prelude.{◌≡◌};

use crate::docket::ROLL_MOST;

// The greatest code that a member may have; the least is 1.
pub(crate) const CODE_MOST: u16 = 999;

// Whether each code is above the one before it, the first above 0, and none is too great.
fn rises(codes: &[u16]) -> bool
    ensures { result ≡ rises_from 0 codes.now }
{
    let mut last = 0;
    for code in codes {
        if *code <= last || *code > CODE_MOST {
            return false;
        }
        last = *code;
    }
    true
}

// Whether the codes are a lawful roll: 2 to 64 rising member codes.
pub fn is_roll(codes: &[u16]) -> bool
    ensures { result ≡ is_roll codes.now }
{
    2 <= codes.len() && codes.len() <= ROLL_MOST && rises(codes)
}

// The place of a code on a roll, from 0.
pub fn place_in(roll: &[u16], code: u16) -> Option<usize>
    ensures { result ≡ place_in roll.now code }
{
    roll.iter().position(|member| *member == code)
}
