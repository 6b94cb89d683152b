// What goes by a name: what is plugged into a session, and what a file header says.
ghost use Rattle.console.specs.Names.{value_named};
ghost use Rattle.std.specs.Prelude.{◌≡◌};

use rules::instruments::AnyInstrument;
use rules::rankings::AnyRanking;
use terms::currency::Currency;
use terms::cycle::Cycle;
use terms::file_kind::FileKind;

// A kind of cover source.
#[derive(Clone, Copy)]
pub enum SourceKind {
    Statement,
    Pledges,
}

pub const INSTRUMENTS: [(&str, AnyInstrument); 2] = [
    ("transfers", AnyInstrument::Transfers),
    ("debits", AnyInstrument::Debits),
];

pub const RANKINGS: [(&str, AnyRanking); 2] = [
    ("sending", AnyRanking::Sending),
    ("wages", AnyRanking::Wages),
];

pub const SOURCES: [(&str, SourceKind); 2] = [
    ("statement", SourceKind::Statement),
    ("pledges", SourceKind::Pledges),
];

pub const FILE_KINDS: [(&str, FileKind); 2] = [
    ("presentations", FileKind::Presentations),
    ("returns", FileKind::Returns),
];

pub const CURRENCIES: [(&str, Currency); 2] = [
    ("soles", Currency::Soles),
    ("dollars", Currency::Dollars),
];

pub const CYCLES: [(&str, Cycle); 3] = [
    ("morning", Cycle::Morning),
    ("intermediate", Cycle::Intermediate),
    ("afternoon", Cycle::Afternoon),
];

// What goes by that name.
pub fn by_name<T: Copy>(names: &[(&str, T)], word: &str) -> Option<T>
    ensures { result ≡ value_named names.now word.now }
{
    names
        .iter()
        .find(|(name, _)| *name == word)
        .map(|(_, value)| *value)
}
