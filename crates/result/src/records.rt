// The records of a result file, each written where the pen stands.
ghost use Rattle.std.specs.Prelude.{◌≡◌, ◌+◌, ◌≤◌, length};
ghost use Rattle.pen.specs.Puts.{Puts};
ghost use Rattle.result.specs.Kinds.{head_of, tag_of, width_of};
ghost use Rattle.result.specs.Layout.{enc_header, enc_member, enc_totals, enc_withdrawn, twos};

use crate::member_line::MemberLine;
use clearing::entry::Entry;
use pen::pen::Pen;
use terms::currency::Currency;
use terms::cycle::Cycle;

// The kinds of records of a result file, each with its tag.
#[derive(Clone, Copy)]
pub(crate) enum Kind {
    Header = 4,
    Member = 2,
    Withdrawn = 3,
    Totals = 10,
}

// The tag and the length of the value, in front of each value.
const HEAD_BYTES: usize = 3;

// The cause that every withdrawn record carries.
const WITHDRAWN_CAUSE: u8 = 12;

impl Kind {
    // The tag of the kind.
    fn tag(self) -> u8
        ensures { result ≡ tag_of self }
    {
        self as u8
    }

    // How many bytes the value has.
    fn width(self) -> u16
        ensures { result ≡ width_of self }
    {
        match self {
            Kind::Header => 6,
            Kind::Member => 18,
            Kind::Withdrawn => 15,
            Kind::Totals => 12,
        }
    }

    // How many bytes a whole record has.
    pub(crate) fn bytes(self) -> usize
        ensures { result ≡ 3 + width_of self }
    {
        HEAD_BYTES + usize::from(self.width())
    }
}

// A position in two's complement.
fn in_twos(position: i64) -> u64
    ensures { result ≡ twos position }
{
    position.cast_unsigned()
}

// Writes the tag of a record and the length of its value.
fn write_head(pen: &mut Pen, kind: Kind)
    requires { pen.old.at + 3 ≤ length pen.old.out.now }
    ensures { Puts pen.old pen.new (head_of kind) }
{
    pen.put(kind.tag());
    pen.put(kind.width());
}

// Writes the header: 9 bytes.
pub(crate) fn write_header(pen: &mut Pen, currency: Currency, cycle: Cycle, date: u32)
    requires { pen.old.at + 9 ≤ length pen.old.out.now }
    ensures { Puts pen.old pen.new (enc_header currency cycle date) }
{
    write_head(pen, Kind::Header);
    pen.put(u8::from(currency));
    pen.put(u8::from(cycle));
    pen.put(date);
}

// Writes a member: 21 bytes.
pub(crate) fn write_member(pen: &mut Pen, line: MemberLine)
    requires { pen.old.at + 21 ≤ length pen.old.out.now }
    ensures { Puts pen.old pen.new (enc_member line) }
{
    write_head(pen, Kind::Member);
    pen.put(line.code);
    pen.put(in_twos(line.position));
    pen.put(line.cover);
}

// Writes a withdrawn record: 18 bytes.
pub(crate) fn write_withdrawn(pen: &mut Pen, entry: Entry)
    requires { pen.old.at + 18 ≤ length pen.old.out.now }
    ensures { Puts pen.old pen.new (enc_withdrawn entry) }
{
    write_head(pen, Kind::Withdrawn);
    pen.put(entry.origin);
    pen.put(entry.other);
    pen.put(entry.reference);
    pen.put(entry.amount);
    pen.put(entry.commission);
    pen.put(WITHDRAWN_CAUSE);
}

// Writes the totals: 15 bytes.
pub(crate) fn write_totals(pen: &mut Pen, members: u16, withdrawn: u16, sum: u64)
    requires { pen.old.at + 15 ≤ length pen.old.out.now }
    ensures { Puts pen.old pen.new (enc_totals members withdrawn sum) }
{
    write_head(pen, Kind::Totals);
    pen.put(members);
    pen.put(withdrawn);
    pen.put(sum);
}
