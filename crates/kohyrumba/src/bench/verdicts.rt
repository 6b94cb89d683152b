// The verdicts on some files, with no session.
use crate::bench::sum::Sum;
use memberfile::check::check;

#[derive(Clone, Copy)]
pub(crate) struct Verdicts {
    // In the files that pass.
    pub(crate) rows: usize,
    pub(crate) sum: Sum,
}

impl Verdicts {
    pub(crate) fn on(files: &[Vec<u8>]) -> Verdicts {
        let mut rows = 0usize;
        let mut sum = Sum::new();
        for file in files {
            match check(file) {
                Ok(summary) => {
                    rows = rows.saturating_add(usize::from(summary.rows));
                    sum.add(u64::from(summary.rows));
                }
                Err(fault) => sum.add_fault(fault),
            }
        }
        Verdicts { rows, sum }
    }
}
