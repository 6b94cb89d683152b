// Charged debits: the origin is charged, and the commission goes off what it pays.
ghost use Rattle.rules.specs.Instruments.{debit_limit, debits, is_debit};
ghost use Rattle.std.specs.Prelude.{◌≡◌};
ghost use Rattle.std.proofs.Common.{rules};

use crate::instrument::{Denial, Instrument};
use crate::instruments::{AmountLimits, COMMISSION_LIMIT};
use terms::currency::Currency;

#[derive(Clone, Copy)]
pub struct ChargedDebits;

impl ChargedDebits {
    pub const ONLY_TYPE: u8 = 100;

    pub const SOLES_LIMIT: u32 = 7_000_000;

    pub const DOLLARS_LIMIT: u32 = 2_000_000;

    const LIMITS: AmountLimits = AmountLimits {
        soles: Self::SOLES_LIMIT,
        dollars: Self::DOLLARS_LIMIT,
    };

    // The highest amount in that currency.
    pub fn amount_limit(currency: Currency) -> u32
        ensures { result ≡ debit_limit currency }
    {
        Self::LIMITS.of(currency)
    }

    // A commission above the amount would make the receiver pay.
    fn is_debit(currency: Currency, amount: u32, commission: u16) -> bool
        ensures { result ≡ is_debit currency amount commission }
    {
        1 <= amount
            && amount <= Self::amount_limit(currency)
            && commission <= COMMISSION_LIMIT
            && commission as u32 <= amount
    }
}

impl Instrument for ChargedDebits {
    ghost meaning = { λ _. debits };

    ghost limited = { Prim.search rules };

    fn admit(
        &self,
        record_type: u8,
        currency: Currency,
        amount: u32,
        commission: u16,
    ) -> Result<u32, Denial> {
        if record_type != Self::ONLY_TYPE {
            return Err(Denial::RecordType);
        }
        if Self::is_debit(currency, amount, commission) {
            Ok(amount - commission as u32)
        } else {
            Err(Denial::Limits)
        }
    }

    fn origin_pays(&self) -> bool {
        true
    }

    fn takes_returns(&self) -> bool {
        false
    }
}
