// Theorems about clearings and positions: each function stands for what its contract says.
ghost use Rattle.clearing.specs.Laws.{BilateralsAddUp, BilateralsOpposite, GrowsWithCovers, LeftOutNowhereElse, NothingWithItself, PaymentsCovered, PositionsCancel, Unique};

// No lawful covered choice keeps an entry that was withdrawn.
pub fn left_out_nowhere_else()
    ensures { LeftOutNowhereElse }
{}

// Each member's kept payments are at most its cover and its kept receipts.
pub fn payments_covered()
    ensures { PaymentsCovered }
{}

// There is one greatest choice.
pub fn unique()
    ensures { Unique }
{}

// What was kept stays kept under a rule of the same meaning where no cover is lower.
pub fn grows_with_covers()
    ensures { GrowsWithCovers }
{}

// All positions add up to zero.
pub fn positions_cancel()
    ensures { PositionsCancel }
{}

// What two members have between them is opposite, seen from the two sides.
pub fn bilaterals_opposite()
    ensures { BilateralsOpposite }
{}

// The bilateral position of a member with itself is 0.
pub fn nothing_with_itself()
    ensures { NothingWithItself }
{}

// A member's bilateral positions add up to its position.
pub fn bilaterals_add_up()
    ensures { BilateralsAddUp }
{}
