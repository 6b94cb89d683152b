// The names of the cases, and the three members that they are about.
ghost use Rattle.cases.specs.Entries.{code_of, place_of};
ghost use Rattle.cases.specs.Settled.{Settled, letter_of, table};
ghost use Rattle.std.specs.List.{AllByRecursion};
ghost use Rattle.std.specs.Prelude.{◌≡◌};

#[derive(Clone, Copy)]
pub enum Case {
    A,
    B,
    C,
    D,
    E,
    F,
    G,
    H,
    I,
}

impl Case {
    pub const ALL: [Case; 9] = [
        Case::A,
        Case::B,
        Case::C,
        Case::D,
        Case::E,
        Case::F,
        Case::G,
        Case::H,
        Case::I,
    ];
}

// The letter that the case goes by.
impl From<Case> for char {
    ghost from_gives = { λ case c. c ≡ letter_of case };

    fn from(case: Case) -> char {
        match case {
            Case::A => 'A',
            Case::B => 'B',
            Case::C => 'C',
            Case::D => 'D',
            Case::E => 'E',
            Case::F => 'F',
            Case::G => 'G',
            Case::H => 'H',
            Case::I => 'I',
        }
    }
}

// The members 2, 7 and 9. Each has two numbers, its code and its place, so they are methods and no conversion.
#[derive(Clone, Copy)]
pub enum Party {
    Two,
    Seven,
    Nine,
}

impl Party {
    // The member code.
    pub fn code(self) -> u16
        ensures { result ≡ code_of self }
    {
        match self {
            Party::Two => 2,
            Party::Seven => 7,
            Party::Nine => 9,
        }
    }

    // The place on the roll.
    pub fn place(self) -> u8
        ensures { result ≡ place_of self }
    {
        match self {
            Party::Two => 0,
            Party::Seven => 1,
            Party::Nine => 2,
        }
    }
}

// Each row of the table is settled as the rules say.
pub fn settled()
    ensures { AllByRecursion Settled table }
{}
