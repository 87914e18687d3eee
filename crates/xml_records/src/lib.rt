// The records that a text is read as, collected in a table. Beyond a limit of a table that is told and nothing is put.
#![tactic(auto)]

ghost use Rattle.std.specs.Prelude.{[], ◌∷◌, ◌≤◌};
ghost use Rattle.xliff.specs.Unit.{ignorable, segment};
ghost use Rattle.xliff.specs.Encode.{opening, closing, part_head, target_head, text_run, inline};
ghost use Rattle.table.specs.Meaning.{segment_meaning, item};
ghost use Rattle.xml_records.specs.Collecting.{Collects};

use table::{Item, Segment};
use table_builder::TableBuilder;

// A code point of text.
pub fn put_code_point(builder: &mut TableBuilder, c: u32)
    requires { c ≤ 0x10FFFF }
    ensures { Collects (text_run (c ∷ []) ∷ []) builder.old builder.new }
{
    builder.put_code_point(c);
}

// An inline record that is no text.
pub fn put_item(builder: &mut TableBuilder, x: Item)
    ensures { Collects (inline (item x) ∷ []) builder.old builder.new }
{
    let mut bytes = [0u8; 12];
    let wide = item_records::put_item(&mut bytes, x);
    builder.put_record(&bytes[..wide], false);
}

// UN with this canResegment.
pub fn put_opening(builder: &mut TableBuilder, can_resegment: u8)
    ensures { Collects (opening (record { can_resegment = can_resegment }) ∷ []) builder.old builder.new }
{
    let mut bytes = [0u8; 3];
    let letter_at = writer::put_mark(&mut bytes, 0, b"UN");
    writer::put_byte(&mut bytes, letter_at, can_resegment);
    builder.put_record(&bytes, false);
}

// UE.
pub fn put_closing(builder: &mut TableBuilder)
    ensures { Collects (closing ∷ []) builder.old builder.new }
{
    builder.put_record(b"UE", false);
}

// SG with these fields.
pub fn put_segment(builder: &mut TableBuilder, f: Segment)
    ensures { Collects (part_head (segment (segment_meaning f)) ∷ []) builder.old builder.new }
{
    let mut head = [0u8; 6];
    heads::put_segment(&mut head, f);
    builder.put_record(&head, true);
}

// IG with this id.
// IG by itself, not with TG: each mark is written as a fixed two-byte string where it is named.
pub fn put_ignorable(builder: &mut TableBuilder, id: u16)
    ensures { Collects (part_head (ignorable id) ∷ []) builder.old builder.new }
{
    let mut bytes = [0u8; 4];
    let id_at = writer::put_mark(&mut bytes, 0, b"IG");
    writer::put_number(&mut bytes, id_at, id);
    builder.put_record(&bytes, true);
}

// TG with this order.
pub fn put_target_head(builder: &mut TableBuilder, order: u16)
    ensures { Collects (target_head order ∷ []) builder.old builder.new }
{
    let mut bytes = [0u8; 4];
    heads::put_target_head(&mut bytes, order);
    builder.put_record(&bytes, false);
}
