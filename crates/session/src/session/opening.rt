// Opening a session.
ghost use Rattle.std.specs.Prelude.{◌≡◌, min, false, vec_len};
ghost use Rattle.session.specs.Parts.{stands_cleared};
ghost use Rattle.session.specs.Ledger.{ledger_of, opened};
ghost use Rattle.terms.specs.Dockets.{day_of};

use crate::session::{FileNumbers, Session};
use clearing::covers::Covers;
use clearing::place::{MEMBERS, Place};
use table::table::Table;
use terms::docket::Docket;

impl Session {
    // A session of that docket over the places, of which the first 4,096 at most are its capacity.
    pub fn open(docket: Docket, places: Vec<Place>) -> Session
        ensures ledger { ledger_of result ≡ opened (day_of docket) (min (vec_len places) 4096) }
        ensures cleared { stands_cleared result ≡ false }
    {
        Session {
            docket,
            table: Table::new(places),
            numbers: [FileNumbers::default(); MEMBERS],
            cleared: false,
            covers: Covers::none(),
        }
    }
}
