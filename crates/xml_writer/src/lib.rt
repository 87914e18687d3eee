// A unit as XML: one walk over the records of its table.
#![tactic(auto)]

ghost use Rattle.std.specs.Prelude.{◌≡◌, ◌++◌};
ghost use Rattle.xliff.specs.Parse.{unit};
ghost use Rattle.xliff.specs.Unit.{segment, ignorable};
ghost use Rattle.places.specs.Passes.{Passes};
ghost use Rattle.table.specs.Meaning.{item, segment_meaning, width};
ghost use Rattle.draft.specs.Drafts.{Wrote};
ghost use Rattle.xml.specs.Words.{'unit'};
ghost use Rattle.xml.specs.Write.{opening_tag, closing_tag, head_name, head_attributes, unit_text};
ghost use Rattle.xml_items.specs.Items.{FourDigits};
ghost use Rattle.xml_nesting.specs.Nesting.{RecordsAt};
ghost use Rattle.xml_writer.specs.Records.{part_end, target_open, open_in, open_read, unit_start, part_start, target_start, Stands, WroteRecord, WroteInline, TextAt, WroteText, found, read_there};

use draft::Draft;
use table::{Item, Read, Record, Segment};

// What is open where a record begins: the source or the target of a part, or nothing but the unit.
#[derive(Clone, Copy)]
pub enum Open {
    Between,
    SegmentSource,
    SegmentTarget,
    IgnorableSource,
    IgnorableTarget,
}

fn target_open(within: Open) -> Open
    ensures { result ≡ target_open within }
{
    match within {
        Open::Between => Open::Between,
        Open::SegmentSource | Open::SegmentTarget => Open::SegmentTarget,
        Open::IgnorableSource | Open::IgnorableTarget => Open::IgnorableTarget,
    }
}

fn open_in(within: Open, x: Record) -> Open
    ensures { result ≡ open_in within x }
{
    match x {
        Record::Unit(_) | Record::UnitEnd => Open::Between,
        Record::Segment(_) => Open::SegmentSource,
        Record::Ignorable(_) => Open::IgnorableSource,
        Record::Target(_) => target_open(within),
        Record::Text | Record::Inline(_) => within,
    }
}

// What is open behind a record.
fn open_behind(within: Open, r: Read) -> Open
    ensures { result ≡ open_read within r }
{
    match r {
        Read::Good(x, _) => open_in(within, x),
        Read::Ill | Read::Broken(_) => within,
    }
}

// The end tags of the part that is open.
fn put_part_end(draft: &mut Draft, within: Open)
    ensures { Wrote (part_end within) draft.old draft.new }
{
    match within {
        Open::Between => {}
        Open::SegmentSource => draft.put(b"</source></segment>"),
        Open::SegmentTarget => draft.put(b"</target></segment>"),
        Open::IgnorableSource => draft.put(b"</source></ignorable>"),
        Open::IgnorableTarget => draft.put(b"</target></ignorable>"),
    }
}

// UN: the unit's id is written as 1.
fn put_unit_start(draft: &mut Draft, can_resegment: u8)
    ensures { Wrote (unit_start can_resegment) draft.old draft.new }
{
    draft.put(b"<unit");
    xml_tags::put_number(draft, b"id", 1);
    xml_tags::put_yes_no(draft, b"canResegment", can_resegment);
    draft.put(b">");
}

// UE
fn put_unit_end(draft: &mut Draft, within: Open)
    ensures { Wrote (part_end within ++ closing_tag 'unit') draft.old draft.new }
{
    put_part_end(draft, within);
    draft.put(b"</unit>");
}

fn put_segment_tag(draft: &mut Draft, f: Segment)
    ensures { Wrote (opening_tag (head_name (segment (segment_meaning f))) (head_attributes (segment
        (segment_meaning f)))) draft.old draft.new }
{
    draft.put(b"<segment");
    xml_tags::put_unless_zero(draft, b"id", f.id);
    xml_tags::put_unless_hyphen(draft, b"canResegment", f.can_resegment);
    xml_tags::put_state(draft, f.state);
    draft.put(b">");
}

// SG: the part before it ends, and its source begins.
fn put_segment(draft: &mut Draft, within: Open, f: Segment)
    ensures { Wrote (part_start within (segment (segment_meaning f))) draft.old draft.new }
{
    put_part_end(draft, within);
    put_segment_tag(draft, f);
    draft.put(b"<source>");
}

// IG
fn put_ignorable(draft: &mut Draft, within: Open, i: u16)
    ensures { Wrote (part_start within (ignorable i)) draft.old draft.new }
{
    put_part_end(draft, within);
    draft.put(b"<ignorable");
    xml_tags::put_unless_zero(draft, b"id", i);
    draft.put(b"><source>");
}

// TG: the source ends, and the target begins.
fn put_target(draft: &mut Draft, q: u16)
    ensures { Wrote (target_start q) draft.old draft.new }
{
    draft.put(b"</source><target");
    xml_tags::put_number(draft, b"order", q);
    draft.put(b">");
}

// An inline record other than text, whose content goes on at `next`: the start of a pc has the dataRef of its end.
// 0 is the table's number for no dataRef; other items than a pc's start do not show it.
fn put_inline(draft: &mut Draft, t: &[u8], next: usize, i: Item)
    requires { RecordsAt t.now next × FourDigits (item i) }
    ensures { WroteInline t.now next (item i) draft.old draft.new }
{
    let end_data = if xml_nesting::opens(i) {
        xml_nesting::end_data(t, next)
    } else {
        0
    };
    xml_items::put_item(draft, i, end_data);
}

// TX
fn put_text(draft: &mut Draft, t: &[u8], at: usize, w: usize)
    requires { TextAt t.now at w }
    ensures { WroteText t.now at w draft.old draft.new }
{
    let start = at + marks::TEXT_WIDTH;
    let end = at + w;
    xml_text::put_text(draft, &t[start..end]);
}

// The record `x`, which takes `w` bytes at an offset of the table.
fn put_record(draft: &mut Draft, t: &[u8], at: usize, within: Open, x: Record, w: usize)
    requires { Stands t.now at (found t.now at x) w }
    ensures { WroteRecord t.now at within (found t.now at x) draft.old draft.new }
{
    match x {
        Record::Unit(f) => put_unit_start(draft, f.can_resegment),
        Record::UnitEnd => put_unit_end(draft, within),
        Record::Segment(f) => put_segment(draft, within, f),
        Record::Ignorable(i) => put_ignorable(draft, within, i),
        Record::Target(q) => put_target(draft, q),
        Record::Text => put_text(draft, t, at, w),
        Record::Inline(i) => put_inline(draft, t, at + w, i),
    }
}

// What was read at an offset of the table.
fn put_read(draft: &mut Draft, t: &[u8], at: usize, within: Open, r: Read)
    requires { Stands t.now at (read_there t.now at r) (width r) }
    ensures { WroteRecord t.now at within (read_there t.now at r) draft.old draft.new }
{
    match r {
        Read::Good(x, w) => put_record(draft, t, at, within, x, w),
        Read::Ill | Read::Broken(_) => {}
    }
}

// The unit of a table that passed the check.
pub fn put_unit(draft: &mut Draft, t: &[u8])
    requires { Passes t.now }
    ensures { Wrote (unit_text (unit t.now)) draft.old draft.new }
{
    let mut at: usize = 0;
    let mut within = Open::Between;
    // The lent table is read record by record through the walker.
    while at < t.len() {
        let r = walker::known_at(t, at);
        put_read(draft, t, at, within, r);
        within = open_behind(within, r);
        at += syntax::width_of(r);
    }
}
