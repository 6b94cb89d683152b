// How the lines of lists and plans are read: a kind, a currency and a cycle by name or by number, and amounts with a point or without.
use crate::amounts::Money;
use console::misread::Misread;
use console::names::{CURRENCIES, CYCLES, FILE_KINDS, by_name};
use console::records::Reading;
use console::words::number;

// The number that a name or a number says.
fn code_of<T: Copy + Into<u8>>(names: &[(&str, T)], word: &str) -> Result<u8, Misread> {
    by_name(names, word).map_or_else(|| number(word), |value| Ok(value.into()))
}

// The lines of a list.
pub struct Listing;

impl Reading for Listing {
    const HEADER: &'static str = "file KIND CURRENCY CYCLE ORIGIN DATE NUMBER";

    const PRESENTATION: &'static str = "present TYPE OTHER REFERENCE AMOUNT COMMISSION";

    const RETURN: &'static str = "return ORIGINATOR REFERENCE AMOUNT COMMISSION CAUSE";

    fn kind(word: &str) -> Result<u8, Misread> {
        code_of(&FILE_KINDS, word)
    }

    fn currency(word: &str) -> Result<u8, Misread> {
        code_of(&CURRENCIES, word)
    }

    fn cycle(word: &str) -> Result<u8, Misread> {
        code_of(&CYCLES, word)
    }

    fn amount(word: &str) -> Result<u64, Misread> {
        Ok(number::<Money>(word)?.0)
    }
}
