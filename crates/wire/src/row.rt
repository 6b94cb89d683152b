// A row of a batch, and the totals over rows.
ghost use Rattle.std.specs.Prelude.{◌≡◌, ◌<◌};
ghost use Rattle.wire.specs.Rows.{Even, is_of, plus, presentations};

use crate::values::{Presentation, Return, Totals};
use terms::file_kind::FileKind;

#[derive(Clone, Copy)]
pub enum Row {
    Presentation(Presentation),
    Return(Return),
}

impl Row {
    // Whether rows of this tag stand in files of that kind.
    pub fn is_of(self, kind: FileKind) -> bool
        ensures { result ≡ is_of kind self }
    {
        match (kind, self) {
            (FileKind::Presentations, Row::Presentation(_)) => true,
            (FileKind::Returns, Row::Return(_)) => true,
            _ => false,
        }
    }

    // How many presentations the row is: one or none.
    pub fn presentations(self) -> u16
        ensures { result ≡ presentations self }
    {
        match self {
            Row::Presentation(_) => 1,
            Row::Return(_) => 0,
        }
    }
}

impl Totals {
    // The totals with one row more.
    pub fn plus(self, row: Row) -> Totals
        requires { (Even self) × (self.count < 65535) }
        ensures value { result ≡ plus self row }
        ensures even { Even result }
    {
        let (party, amount, commission) = match row {
            Row::Presentation(p) => (p.other, p.amount, p.commission),
            Row::Return(p) => (p.originator, p.amount, p.commission),
        };
        Totals {
            count: self.count + 1,
            amounts: self.amounts + u64::from(amount),
            commissions: self.commissions + u64::from(commission),
            parties: self.parties + u32::from(party),
        }
    }
}
