// The clearing: all live entries are kept at first, and while a member is short, its last kept entry is withdrawn.
ghost use Rattle.std.specs.Prelude.{◌≡◌, ℕ, ◌+◌, ◌<◌, ◌≤◌, min, false, length, drop, pos, IfSome, slice_index, slice_set};
ghost use Rattle.clearing.specs.Balances.{Balanced, LastKept, Without, lowered};
ghost use Rattle.clearing.specs.Sums.{dues, means};
ghost use Rattle.clearing.specs.Choices.{Choice, NowhereElse, entry_at, live, paid, received};
ghost use Rattle.clearing.specs.Lanes.{AllLaned};
ghost use Rattle.clearing.specs.Positions.{position, signed_up_to};
ghost use Rattle.clearing.specs.Table.{Cleared, cover_of, cover_on_roll, entries, front, kept, marks};

use crate::balances::Balances;
use crate::covers::Covers;
use crate::fronts::front_len;
use crate::lanes::Lanes;
use crate::place::Place;
use crate::ranked::Ranked;
use rules::cover::CoverSource;
use rules::ranking::Ranking;

// Keeps every live entry, in one pass that adds up the balances too.
fn keep_live(covers: &Covers, places: &mut [Place]) -> Balances
    requires { length places.old ≤ 4096 }
    ensures entries { entries places.new ≡ entries places.old }
    ensures kept { (i : ℕ) → kept places.new i ≡ live (entries places.old) i }
    ensures balanced { Balanced (cover_of covers.now) (entries places.old) (live (entries places.old)) (dues result.by_member) (means result.by_member) }
{
    let mut balances = Balances::of(covers);
    for place in places.iter_mut() {
        let live = place.entry.is_live();
        place.kept = live;
        if live {
            balances.add(place);
        }
    }
    balances
}

// The place of the member's last kept entry, which is taken off the lanes where there are lanes.
fn take_last<R: Ranking>(
    lanes: &mut Option<Lanes>,
    ranked: &Ranked<'_, R>,
    member: usize,
) -> Option<usize>
    requires member { member < 64 }
    requires laned { IfSome lanes.old (λ ls. AllLaned (R.Ranking.ahead ranked.now.rule.now) ranked.now.places.now (kept ranked.now.places.now) ls.tops ls.below) }
    ensures last { LastKept (R.Ranking.ahead ranked.now.rule.now) ranked.now.places.now member result }
    ensures laned { IfSome result (λ r. (D : Choice) → Without (kept ranked.now.places.now) D r → IfSome lanes.new (λ ls. AllLaned (R.Ranking.ahead ranked.now.rule.now) ranked.now.places.now D ls.tops ls.below)) }
{
    match lanes {
        Some(lanes) => lanes.take_last(ranked, member),
        None => ranked.last_of(member),
    }
}

// Withdraws the entry at a place, takes it out of the balances, and says who its receiver is.
fn withdraw(places: &mut [Place], balances: &mut Balances, at: usize) -> usize
    requires within { at < length places.old }
    requires paid { (entry_at (entries places.old) at).worth ≤ slice_index (dues balances.old.by_member) (entry_at (entries places.old) at).payer }
    requires received { (entry_at (entries places.old) at).worth ≤ slice_index (means balances.old.by_member) (entry_at (entries places.old) at).receiver }
    ensures entries { entries places.new ≡ entries places.old }
    ensures marks { marks places.new ≡ slice_set (marks places.old) at false }
    ensures due { dues balances.new.by_member ≡ lowered (dues balances.old.by_member) (entry_at (entries places.old) at).payer (entry_at (entries places.old) at).worth }
    ensures receiver { result ≡ (entry_at (entries places.old) at).receiver }
    ensures funds { means balances.new.by_member ≡ lowered (means balances.old.by_member) (entry_at (entries places.old) at).receiver (entry_at (entries places.old) at).worth }
{
    let place = places[at];
    balances.take_out(&place);
    places[at].kept = false;
    usize::from(place.entry.receiver)
}

// Clears all the places. The last kept entry of a short member is in no lawful covered choice: with it such a choice would hold all that the
// member pays so far, and receive no more. So what is left when nobody is short contains every lawful covered choice.
fn clear_all<R: Ranking>(rule: &R, covers: &Covers, places: &mut [Place]) -> usize
    requires { length places.old ≤ 4096 }
    ensures { Cleared (R.Ranking.ahead rule.now) (cover_of covers.now) places.old places.new result }
{
    let mut balances = keep_live(covers, places);
    let mut lanes = match balances.find_short() {
        Some(_) => Lanes::filled(&Ranked { rule, places }),
        None => None,
    };
    let mut count = 0;
    let mut payer = 0;
    let mut receiver = 0;
    while let Some(member) = balances.next_short(payer, receiver) {
        let last = take_last(&mut lanes, &Ranked { rule, places }, member).unwrap();
        payer = member;
        receiver = withdraw(places, &mut balances, last);
        count += 1;
    }
    count
}

// Clears the first `held` places, at most 4,096, and answers how many live entries it withdrew.
pub fn clear<R: Ranking>(rule: &R, covers: &Covers, places: &mut [Place], held: usize) -> usize
    ensures cleared { Cleared (R.Ranking.ahead rule.now) (cover_of covers.now) (front held places.old) (front held places.new) result }
    ensures behind { drop (min held 4096) places.new ≡ drop (min held 4096) places.old }
{
    let n = front_len(held, places.len());
    clear_all(rule, covers, &mut places[..n])
}

// What a clearing answers: how many live entries it withdrew, and the covers that it went by.
#[derive(Clone, Copy)]
pub struct Settlement {
    pub withdrawn: usize,
    pub covers: Covers,
}

// Asks the source for the cover of each member on the roll, and clears by these.
pub fn clear_by<R: Ranking, C: CoverSource>(
    rule: &R,
    source: &C,
    roll: &[u16],
    places: &mut [Place],
    held: usize,
) -> Settlement
    ensures cleared { Cleared (R.Ranking.ahead rule.now) (cover_on_roll (C.CoverSource.covers source.now) roll.now) (front held places.old) (front held places.new) result.withdrawn }
    ensures covers { (m : ℕ) → cover_of result.covers m ≡ cover_on_roll (C.CoverSource.covers source.now) roll.now m }
    ensures behind { drop (min held 4096) places.new ≡ drop (min held 4096) places.old }
    ensures nowhere_else { NowhereElse (R.Ranking.ahead rule.now) (cover_on_roll (C.CoverSource.covers source.now) roll.now) (entries (front held places.old)) (kept (front held places.new)) }
    ensures paid_for { (m : ℕ) → m < 64 → paid (entries (front held places.new)) (kept (front held places.new)) m ≤ cover_on_roll (C.CoverSource.covers source.now) roll.now m + received (entries (front held places.new)) (kept (front held places.new)) m }
    ensures cancel { signed_up_to (position (entries (front held places.new)) (kept (front held places.new))) 64 ≡ pos 0 }
{
    let covers = Covers::gather(source, roll);
    let withdrawn = clear(rule, &covers, places, held);
    Settlement { withdrawn, covers }
}
