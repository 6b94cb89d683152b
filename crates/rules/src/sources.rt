// The shipped cover sources, and either of them as one type.
ghost use Rattle.rules.specs.Sources.{any_cover, is_member_code};
ghost use Rattle.std.specs.Prelude.{◌≡◌};
ghost use Rattle.std.proofs.Common.{rules};

pub mod pledges;
pub mod statement;

use crate::cover::CoverSource;
use crate::sources::pledges::Pledges;
use crate::sources::statement::Statement;

// Member codes run from 1 to this one.
pub const LAST_CODE: u16 = 999;

fn is_member_code(code: u16) -> bool
    ensures { result ≡ is_member_code code }
{
    1 <= code && code <= LAST_CODE
}

// Either source as it stands, so that one list of calls can mix them.
#[derive(Clone, Copy)]
pub enum AnySource {
    Statement(Statement),
    Pledges(Pledges),
}

impl CoverSource for AnySource {
    ghost covers = { any_cover };

    ghost limited = { Prim.search rules };

    fn cover(&self, code: u16) -> u64 {
        match self {
            AnySource::Statement(s) => s.cover(code),
            AnySource::Pledges(p) => p.cover(code),
        }
    }
}
