// The records of a member file, each written where the pen stands.
ghost use Rattle.std.specs.Prelude.{◌≡◌, ◌+◌, ◌≤◌, length};
ghost use Rattle.memberfile.specs.Layout.{FitsRow, enc_closing, enc_file_head, enc_presentation, enc_record, enc_return, enc_row};
ghost use Rattle.wire.specs.declared.record.Tag.TheVariants.{Presentation as PresentationTag, Return as ReturnTag};
ghost use Rattle.pen.specs.Puts.{Puts};
ghost use Rattle.writer.specs.Records.{enc_batch_head_of, head_bytes};

use memberfile::header::Header;
use pen::pen::Pen;
use terms::file_kind::FileKind;
use wire::record::Tag;
use wire::row::Row;
use wire::values::{Presentation, Return, Totals};

// Writes the tag of a record and the length of its value.
fn write_tag(pen: &mut Pen, tag: Tag)
    requires { pen.old.at + 3 ≤ length pen.old.out.now }
    ensures { Puts pen.old pen.new (head_bytes tag) }
{
    pen.put(u8::from(tag));
    pen.put(tag.width() as u16);
}

// Writes a file header: 13 bytes.
pub(crate) fn write_file_head(pen: &mut Pen, header: Header)
    requires { pen.old.at + 13 ≤ length pen.old.out.now }
    ensures { Puts pen.old pen.new (enc_file_head header) }
{
    write_tag(pen, Tag::FileHeader);
    pen.put(u8::from(header.kind));
    pen.put(u8::from(header.currency));
    pen.put(u8::from(header.cycle));
    pen.put(header.origin);
    pen.put(header.date);
    pen.put(header.number);
}

// Writes the header of a batch of a file of that kind: 6 bytes.
pub(crate) fn write_batch_head(pen: &mut Pen, kind: FileKind, number: u16)
    requires { pen.old.at + 6 ≤ length pen.old.out.now }
    ensures { Puts pen.old pen.new (enc_batch_head_of kind number) }
{
    write_tag(pen, Tag::BatchHeader);
    pen.put(kind.batch_kind());
    pen.put(number);
}

// Writes a presentation: 16 bytes.
fn write_presentation(pen: &mut Pen, p: Presentation)
    requires { pen.old.at + 16 ≤ length pen.old.out.now }
    ensures { Puts pen.old pen.new (enc_record PresentationTag (enc_presentation p)) }
{
    write_tag(pen, Tag::Presentation);
    pen.put(p.record_type);
    pen.put(p.other);
    pen.put(p.reference);
    pen.put(p.amount);
    pen.put(p.commission);
}

// Writes a return: 16 bytes.
fn write_return(pen: &mut Pen, p: Return)
    requires { pen.old.at + 16 ≤ length pen.old.out.now }
    ensures { Puts pen.old pen.new (enc_record ReturnTag (enc_return p)) }
{
    write_tag(pen, Tag::Return);
    pen.put(p.originator);
    pen.put(p.reference);
    pen.put(p.amount);
    pen.put(p.commission);
    pen.put(p.cause);
}

// Writes a row of a batch: 16 bytes.
pub(crate) fn write_row(pen: &mut Pen, row: Row)
    requires { pen.old.at + 16 ≤ length pen.old.out.now }
    ensures puts { Puts pen.old pen.new (enc_row row) }
    ensures fits { FitsRow row }
{
    match row {
        Row::Presentation(p) => write_presentation(pen, p),
        Row::Return(p) => write_return(pen, p),
    }
}

// Writes a batch end or a file end with its number and totals: 27 bytes.
pub(crate) fn write_end(pen: &mut Pen, tag: Tag, number: u16, totals: Totals)
    requires { pen.old.at + 27 ≤ length pen.old.out.now }
    ensures { Puts pen.old pen.new (enc_record tag (enc_closing number totals)) }
{
    write_tag(pen, tag);
    pen.put(number);
    pen.put(totals.count);
    pen.put(totals.amounts);
    pen.put(totals.commissions);
    pen.put(totals.parties);
}
