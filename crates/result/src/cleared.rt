// A session that stands cleared, and its result file written record by record.
ghost use Rattle.std.specs.Prelude.{◌≡◌, ◌+◌, ◌*◌, ◌<◌, ◌≤◌, true, length};
ghost use Rattle.pen.specs.Buffer.{fronted};
ghost use Rattle.pen.specs.Puts.{Puts};
ghost use Rattle.result.specs.Answers.{result_bytes};
ghost use Rattle.result.specs.Gathered.{each_of};
ghost use Rattle.result.specs.Layout.{enc_member, enc_withdrawn, positive, positive_sum};
ghost use Rattle.result.specs.Value.{line_of, lines_of, listed, withdrawn_at, withdrawn_of};
ghost use Rattle.session.specs.Parts.{docket_of, stands_cleared};
ghost use Rattle.session.specs.Questions.{SheetIn};
ghost use Rattle.terms.specs.Dockets.{roll_of};

use crate::member_line::MemberLine;
use crate::records::{Kind, write_header, write_member, write_totals, write_withdrawn};
use clearing::entry::Entry;
use clearing::sheet::Sheet;
use pen::pen::Pen;
use session::session::Session;

// A session that stands cleared, with its sheet.
#[derive(Clone, Copy)]
pub(crate) struct Cleared<'s> {
    pub(crate) session: &'s Session,
    pub(crate) sheet: &'s Sheet,
    ghost stands: { stands_cleared session.now ≡ true },
    ghost counted: { SheetIn session.now sheet.now },
}

// A position, or 0 where it is negative.
fn positive_part(position: i64) -> u64
    ensures { result ≡ positive position }
{
    if position < 0 { 0 } else { position as u64 }
}

impl Cleared<'_> {
    // How many members the roll has.
    fn members(&self) -> usize
        ensures value { result ≡ length (roll_of (docket_of self.now.session.now)) }
        ensures few { result ≤ 64 }
    {
        self.session.docket().roll().len()
    }

    // How many records were withdrawn.
    fn withdrawn(&self) -> usize
        ensures value { result ≡ length (withdrawn_of self.now.session.now) }
        ensures few { result ≤ 4096 }
    {
        self.sheet.withdrawn()
    }

    // How many bytes the result file has.
    #[tactic(auto, using(crate::proofs::Answered::result_long))]
    pub(crate) fn len(&self) -> usize
        ensures { result ≡ length (result_bytes self.now.session.now) }
    {
        Kind::Header.bytes()
            + self.members() * Kind::Member.bytes()
            + self.withdrawn() * Kind::Withdrawn.bytes()
            + Kind::Totals.bytes()
    }

    // The member with a code, at its place on the roll.
    fn member(&self, place: usize, code: u16) -> MemberLine
        requires { place < 64 }
        ensures { result ≡ line_of self.now.session.now code place }
    {
        MemberLine {
            code,
            position: self.sheet.position(place as u8),
            cover: self.session.cover_at(place as u8),
        }
    }

    // Writes the members along the roll, and gives the sum of their positive positions.
    fn write_members(&self, pen: &mut Pen) -> u64
        requires { pen.old.at + 21 * length (roll_of (docket_of self.now.session.now)) ≤ length pen.old.out.now }
        ensures puts { Puts pen.old pen.new (each_of enc_member (lines_of self.now.session.now)) }
        ensures sum { result ≡ positive_sum (lines_of self.now.session.now) }
    {
        let mut sum = 0;
        for (place, code) in self.session.docket().roll().iter().enumerate() {
            let member = self.member(place, *code);
            write_member(pen, member);
            sum += positive_part(member.position);
        }
        sum
    }

    // The entry at a place, where the clearing withdrew it.
    fn withdrawn_at(&self, at: usize) -> Option<Entry>
        ensures { listed result ≡ withdrawn_at self.now.session.now at }
    {
        self.session
            .entry_at(at)
            .filter(|entry| entry.is_live() && !self.session.is_kept(at))
    }

    // Writes the withdrawn entries, by session number. It looks at no entry behind the last of them, so where nothing was withdrawn at
    // none.
    fn write_all_withdrawn(&self, pen: &mut Pen)
        requires { pen.old.at + 18 * length (withdrawn_of self.now.session.now) ≤ length pen.old.out.now }
        ensures { Puts pen.old pen.new (each_of enc_withdrawn (withdrawn_of self.now.session.now)) }
    {
        let entries = (0..self.session.held())
            .filter_map(|at| self.withdrawn_at(at))
            .take(self.withdrawn());
        for entry in entries {
            write_withdrawn(pen, entry);
        }
    }

    // Writes the result file at the front of a buffer that is long enough.
    pub(crate) fn write(&self, out: &mut [u8])
        requires { length (result_bytes self.now.session.now) ≤ length out.old }
        ensures { out.new ≡ fronted (result_bytes self.now.session.now) out.old }
    {
        let docket = self.session.docket();
        let mut pen = Pen { out, at: 0 };
        write_header(&mut pen, docket.currency(), docket.cycle(), docket.date());
        let sum = self.write_members(&mut pen);
        self.write_all_withdrawn(&mut pen);
        let members = self.members() as u16;
        let withdrawn = self.withdrawn() as u16;
        write_totals(&mut pen, members, withdrawn, sum);
    }
}
