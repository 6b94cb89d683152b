// Ranking rules: which of two records of a payer stands before the other.
ghost use Rattle.rules.specs.Order.{Order, Strict};
ghost use Rattle.std.specs.Prelude.{◌≡◌};

// What a rule may look at of a record.
#[derive(Clone, Copy, Debug)]
pub struct Key {
    pub record_type: u8,
    pub worth: u32,
    // The session number, from 1.
    pub number: usize,
}

pub trait Ranking {
    // Whether the first key stands before the second, for all pairs of keys: the rule's meaning.
    ghost ahead: { Self → Order };

    // Whether the first stands before the second.
    fn before(&self, a: Key, b: Key) -> bool
        ensures { result ≡ ahead self.now a b };

    ghost strict: { (x : Self) → Strict (ahead x) };
}
