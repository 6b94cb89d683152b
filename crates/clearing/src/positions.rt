// Positions over the kept entries: what a member has received minus what it has paid.
ghost use Rattle.std.specs.Prelude.{◌≡◌, ◌≤◌, Bool};
ghost use Rattle.std.specs.Fn.{FnReturnsAt};
ghost use Rattle.clearing.specs.Choices.{total};
ghost use Rattle.clearing.specs.Positions.{bilateral, position};
ghost use Rattle.clearing.specs.Table.{entries, front, kept};
ghost use Rattle.clearing.specs.declared.entry.Entry.{Entry};

use crate::entry::Entry;
use crate::fronts::front;
use crate::place::Place;

// The worth of the kept entries that pass a test, among the first `held` places.
fn sum<F: Fn(&Entry) -> bool>(places: &[Place], held: usize, passes: F) -> u64
    requires { F.IsAlwaysCallable passes }
    ensures sum { (test : Entry → Bool) → ((e : Entry) (r : Bool) → FnReturnsAt F.Fn passes e r → r ≡ test e) → result ≡ total test (entries (front held places.now)) (kept (front held places.now)) }
    ensures low { result ≤ 409600000000 }
{
    let mut all = 0;
    for place in front(places, held) {
        if place.kept && passes(&place.entry) {
            all += u64::from(place.entry.worth);
        }
    }
    all
}

// The position of a member, by its place on the roll.
pub fn position(places: &[Place], held: usize, member: u8) -> i64
    ensures { result ≡ position (entries (front held places.now)) (kept (front held places.now)) member }
{
    let received = sum(places, held, |entry| entry.receiver == member);
    let paid = sum(places, held, |entry| entry.payer == member);
    received as i64 - paid as i64
}

// The position of member `a` towards member `b`.
pub fn bilateral(places: &[Place], held: usize, a: u8, b: u8) -> i64
    ensures { result ≡ bilateral (entries (front held places.now)) (kept (front held places.now)) a b }
{
    let from_b = sum(
        places,
        held,
        |entry| entry.payer == b && entry.receiver == a,
    );
    let to_b = sum(
        places,
        held,
        |entry| entry.payer == a && entry.receiver == b,
    );
    from_b as i64 - to_b as i64
}
