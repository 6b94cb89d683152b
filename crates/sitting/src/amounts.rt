// Amounts in hundredths of a sol or a dollar, as people read and write them.
use console::misread::Misread;
use console::words::number;
use std::fmt;
use std::str::FromStr;

#[derive(Clone, Copy)]
pub struct Money(pub u64);

// An amount that may be owed.
#[derive(Clone, Copy)]
pub struct Balance(pub i64);

impl fmt::Display for Money {
    fn fmt<W: fmt::Write>(&self, f: &mut fmt::Formatter<W>) -> fmt::Result {
        write!(f, "{}.{:02}", self.0 / 100, self.0 % 100)
    }
}

impl fmt::Display for Balance {
    fn fmt<W: fmt::Write>(&self, f: &mut fmt::Formatter<W>) -> fmt::Result {
        if self.0 < 0 {
            f.write_str("-")?;
        }
        write!(f, "{}", Money(self.0.unsigned_abs()))
    }
}

// With a point and two decimals in soles or dollars, without one in hundredths.
impl FromStr for Money {
    type Err = Misread;

    fn from_str(word: &str) -> Result<Money, Misread> {
        let Some((whole, hundredths)) = word.split_once('.') else {
            return Ok(Money(number(word)?));
        };
        if hundredths.len() != 2 {
            return Err(Misread::Number);
        }
        let hundredths = u64::from(number::<u8>(hundredths)?);
        let amount = number::<u64>(whole)?
            .checked_mul(100)
            .and_then(|amount| amount.checked_add(hundredths));
        Ok(Money(amount.ok_or(Misread::Number)?))
    }
}
