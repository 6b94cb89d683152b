// An entry: a record that was taken in, with its worth and its two parties.
ghost use Rattle.clearing.specs.Choices.{is_live};
ghost use Rattle.std.specs.Prelude.{◌≡◌};

#[derive(Clone, Copy)]
pub struct Entry {
    pub record_type: u8,
    pub origin: u16,
    pub other: u16,
    pub reference: u32,
    pub amount: u32,
    pub commission: u16,
    pub worth: u32,
    // Places on the roll, from 0.
    pub payer: u8,
    pub receiver: u8,
    // Whether its instrument takes returns.
    pub returnable: bool,
    pub returned: bool,
}

impl Entry {
    // Whether the entry takes part in a clearing.
    pub fn is_live(self) -> bool
        ensures { result ≡ is_live self }
    {
        !self.returned
    }
}
