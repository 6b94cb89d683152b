// Instruments: which records a file may present, what they are worth, who pays, and whether they can be returned.
ghost use Rattle.rules.specs.Denials.{refusal_of};
ghost use Rattle.rules.specs.Meaning.{Limited, Meaning};
ghost use Rattle.std.specs.Prelude.{◌≡◌};

use terms::currency::Currency;
use terms::refusal::Refusal;

// Why an instrument does not admit a record.
#[derive(Clone, Copy, Debug, PartialEq, Eq)]
pub enum Denial {
    RecordType,
    Limits,
}

// The refusal that a row gets for it.
impl From<Denial> for Refusal {
    ghost from_gives = { λ denial refusal. refusal ≡ refusal_of denial };

    fn from(denial: Denial) -> Refusal {
        match denial {
            Denial::RecordType => Refusal::RecordType,
            Denial::Limits => Refusal::NotAdmitted,
        }
    }
}

pub trait Instrument {
    // All that the instrument answers: its meaning.
    ghost meaning: { Self → Meaning };

    // The worth of an admitted record, or why it is not admitted. The four are no struct, which each caller would put together and each instrument take apart.
    fn admit(
        &self,
        record_type: u8,
        currency: Currency,
        amount: u32,
        commission: u16,
    ) -> Result<u32, Denial>
        ensures { result ≡ (meaning self.now).admit record_type currency amount commission };

    // Whether the origin pays; else the other member does.
    fn origin_pays(&self) -> bool
        ensures { result ≡ (meaning self.now).origin_pays };

    // Whether records of the instrument may be returned.
    fn takes_returns(&self) -> bool
        ensures { result ≡ (meaning self.now).takes_returns };

    ghost limited: { (x : Self) → Limited (meaning x) };
}
