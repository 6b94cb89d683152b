// What is measured: a docket and member files from a folder, and covers by name.
use anyhow::anyhow;
use clearing::place::{CAPACITY, Place};
use rules::sources::statement::Statement;
use std::alloc::Global;
use std::fs;
use terms::docket::Docket;

const AMPLE: u64 = 1_000_000_000_000;

const SCANT: u64 = 100_000;

// More files than any session takes.
const FILES_MOST: u32 = 12_672;

#[derive(Drop)]
pub(crate) struct Input {
    pub(crate) docket: Docket,
    // In the order of sending.
    pub(crate) files: Vec<Vec<u8>>,
}

fn number_in(words: &[&str], at: usize) -> anyhow::Result<u32> {
    let word = words.get(at).ok_or_else(|| anyhow!("the docket is short"))?;
    Ok(word.parse::<u32>()?)
}

// The docket in a line: date, cycle, currency and member codes.
fn docket_in(heap: Global, line: &str) -> anyhow::Result<Docket> {
    let words: Vec<&str> = line.split_ascii_whitespace().collect(heap)?;
    let date = number_in(&words, 0)?;
    let cycle = u8::try_from(number_in(&words, 1)?)?;
    let currency = u8::try_from(number_in(&words, 2)?)?;
    let roll: Vec<u16> = words
        .iter()
        .skip(3)
        .map(|word| -> anyhow::Result<u16> { Ok(word.parse::<u16>()?) })
        .try_collect(heap)?;
    let mut docket = Docket::built_in();
    docket
        .fill(date, cycle, currency, &roll)
        .map_err(|_| anyhow!("the docket is refused"))?;
    Ok(docket)
}

// The folder's docket, and its files 0, 1, 2 and so on, up to the first that is not there.
pub(crate) fn read_input(rt: &HostRuntime, folder: &str) -> anyhow::Result<Input> {
    let path = format!(in rt.alloc(); "{folder}/docket")?;
    let line = fs::read_to_string(rt, path.as_str())?;
    let docket = docket_in(rt.alloc(), line.as_str())?;
    let mut files = Vec::new(rt.alloc());
    for at in 0..FILES_MOST {
        let path = format!(in rt.alloc(); "{folder}/{at}")?;
        let Ok(bytes) = fs::read(rt, path.as_str()) else {
            break;
        };
        files.push(bytes)?;
    }
    Ok(Input { docket, files })
}

pub(crate) fn blank_places(heap: Global) -> anyhow::Result<Vec<Place>> {
    Ok(vec![in heap; Place::blank(); CAPACITY]?)
}

// The covers of members: enough for everything, little and different for each, or none.
#[derive(Clone, Copy)]
pub(crate) enum Covers {
    Ample,
    Scant,
    None,
}

pub(crate) const COVERS: [(&str, Covers); 3] = [
    ("ample", Covers::Ample),
    ("scant", Covers::Scant),
    ("none", Covers::None),
];

impl Covers {
    fn balance(self, code: u16) -> u64 {
        match self {
            Covers::Ample => AMPLE,
            Covers::Scant => u64::from(code) * SCANT,
            Covers::None => 0,
        }
    }

    // Such covers for the members of a roll.
    pub(crate) fn of(self, roll: &[u16]) -> Statement {
        let mut statement = Statement::new();
        for code in roll {
            let _ = statement.report(*code, self.balance(*code));
        }
        statement
    }
}
