// The mark of a record: what the last clearing did with it.
ghost use Rattle.session.specs.Questions.{mark_number};
ghost use Rattle.std.specs.Prelude.{◌≡◌};

#[derive(Clone, Copy, Debug, PartialEq, Eq)]
pub enum Mark {
    // The session does not stand cleared.
    Unmarked,
    Kept,
    Withdrawn,
    Returned,
}

// The number that answers carry for a mark.
impl From<Mark> for u8 {
    ghost from_gives = { λ mark r. r ≡ mark_number mark };

    fn from(mark: Mark) -> u8 {
        match mark {
            Mark::Unmarked => 0,
            Mark::Kept => 1,
            Mark::Withdrawn => 2,
            Mark::Returned => 3,
        }
    }
}
