// Credit transfers: the origin sends money to the other member.
ghost use Rattle.rules.specs.Instruments.{is_transfer, is_transfer_type, is_validation, transfer_limit, transfers};
ghost use Rattle.std.specs.Prelude.{◌≡◌};
ghost use Rattle.std.proofs.Common.{rules};

use crate::instrument::{Denial, Instrument};
use crate::instruments::{AmountLimits, COMMISSION_LIMIT};
use terms::currency::Currency;

#[derive(Clone, Copy)]
pub struct CreditTransfers;

impl CreditTransfers {
    pub const FIRST_TYPE: u8 = 220;
    // Up to this type a record may be a validation.
    pub const LAST_VALIDATED_TYPE: u8 = 223;

    pub const LAST_TYPE: u8 = 225;

    pub const SOLES_LIMIT: u32 = 30_000_000;

    pub const DOLLARS_LIMIT: u32 = 10_000_000;

    const LIMITS: AmountLimits = AmountLimits {
        soles: Self::SOLES_LIMIT,
        dollars: Self::DOLLARS_LIMIT,
    };

    // The highest amount in that currency.
    pub fn amount_limit(currency: Currency) -> u32
        ensures { result ≡ transfer_limit currency }
    {
        Self::LIMITS.of(currency)
    }

    fn has_type(record_type: u8) -> bool
        ensures { result ≡ is_transfer_type record_type }
    {
        Self::FIRST_TYPE <= record_type && record_type <= Self::LAST_TYPE
    }

    fn is_payment(currency: Currency, amount: u32, commission: u16) -> bool
        ensures { result ≡ is_transfer currency amount commission }
    {
        1 <= amount && amount <= Self::amount_limit(currency) && commission <= COMMISSION_LIMIT
    }

    // Whether the record moves no money and only asks whether the account is there.
    fn is_validation(record_type: u8, amount: u32, commission: u16) -> bool
        ensures { result ≡ is_validation record_type amount commission }
    {
        Self::FIRST_TYPE <= record_type
            && record_type <= Self::LAST_VALIDATED_TYPE
            && amount == 0
            && commission == 0
    }
}

impl Instrument for CreditTransfers {
    ghost meaning = { λ _. transfers };

    ghost limited = { Prim.search rules };

    fn admit(
        &self,
        record_type: u8,
        currency: Currency,
        amount: u32,
        commission: u16,
    ) -> Result<u32, Denial> {
        if !Self::has_type(record_type) {
            return Err(Denial::RecordType);
        }
        if Self::is_payment(currency, amount, commission)
            || Self::is_validation(record_type, amount, commission)
        {
            Ok(amount + commission as u32)
        } else {
            Err(Denial::Limits)
        }
    }

    fn origin_pays(&self) -> bool {
        true
    }

    fn takes_returns(&self) -> bool {
        true
    }
}
