// The shipped ranking rules, and either of them as one type.
ghost use Rattle.rules.specs.Rankings.{any_ranking, is_wages, sending_order, wages_first};
ghost use Rattle.std.specs.Prelude.{◌≡◌};
ghost use Rattle.std.proofs.Common.{rules};
ghost use Rattle.rules.specs.declared.rankings.AnyRanking.TheVariants.{Sending, Wages};

use crate::ranking::{Key, Ranking};

// The lower session number stands before.
#[derive(Clone, Copy)]
pub struct SendingOrder;

impl Ranking for SendingOrder {
    ghost ahead = { λ _. sending_order };

    ghost strict = { Prim.search rules };

    fn before(&self, a: Key, b: Key) -> bool {
        a.number < b.number
    }
}

// What is paid to workers stands before all else; within either group the lower session number does.
#[derive(Clone, Copy)]
pub struct WagesFirst;

impl WagesFirst {
    pub const WAGES_TYPE: u8 = 221;
    // Deposits for time of service count as wages.
    pub const SERVICE_TYPE: u8 = 223;

    fn is_wages(record_type: u8) -> bool
        ensures { result ≡ is_wages record_type }
    {
        record_type == Self::WAGES_TYPE || record_type == Self::SERVICE_TYPE
    }
}

impl Ranking for WagesFirst {
    ghost ahead = { λ _. wages_first };

    ghost strict = { Prim.search rules };

    fn before(&self, a: Key, b: Key) -> bool {
        let first = Self::is_wages(a.record_type);
        if first == Self::is_wages(b.record_type) {
            SendingOrder.before(a, b)
        } else {
            first
        }
    }
}

// Either rule, so that one list of calls can mix them.
#[derive(Clone, Copy)]
pub enum AnyRanking {
    Sending,
    Wages,
}

impl Ranking for AnyRanking {
    ghost ahead = { any_ranking };

    ghost strict = { elim [ Sending ↦ Prim.search rules | Wages ↦ Prim.search rules ] };

    fn before(&self, a: Key, b: Key) -> bool {
        match *self {
            AnyRanking::Sending => SendingOrder.before(a, b),
            AnyRanking::Wages => WagesFirst.before(a, b),
        }
    }
}
