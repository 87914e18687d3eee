// A whole unit in XML.
#![tactic(auto)]

ghost use Rattle.std.specs.Prelude.{[], ◌≤◌, length};
ghost use Rattle.xml.specs.Elements.{unit_due, part_due};
ghost use Rattle.table_builder.specs.Building.{Holds};
ghost use Rattle.xml_piece.specs.Pieces.{rest_at};
ghost use Rattle.xml_element.specs.Opens.{TagIn, start_tokens, EndNameIn, end_tokens};
ghost use Rattle.xml_part.specs.Parts.{CollectingAt};
ghost use Rattle.xml_unit.specs.Units.{Finishes, UnitEnds, BehindUnit, TextRead};

use table_builder::TableBuilder;
use xml_element::{Blamed, EndTag, StartTag, attributes_at};
use xml_elements::Filled;
use xml_heads::unit_opening;
use xml_part::{AnyTag, Outer, outer_at, part, tag_behind};
use xml_records::{put_closing, put_opening};
use xml_slots::{ABSENT, SLOTS, is_word};

// Behind the unit nothing stands but blanks and comments.
fn behind_unit(text: &[u8], start: usize) -> Result<(), Blamed>
    requires { start ≤ length text.now }
    ensures { BehindUnit text.now start result }
{
    match outer_at(text, start)? {
        Outer::Start(tag) => Err(Blamed { place: tag.place }),
        Outer::Close(end) => Err(Blamed { place: end.place }),
        Outer::Cut(place) => Err(Blamed { place }),
        Outer::End(_) => Ok(()),
    }
}

// The end of a unit: its end tag.
fn unit_end(text: &[u8], end: EndTag, builder: &mut TableBuilder) -> Result<(), Blamed>
    requires { EndNameIn text.now end × (end.next ≤ length text.now) }
    ensures { UnitEnds (end_tokens text.now end) builder.old builder.new result }
{
    if !is_word(end.name.of(text), b"unit") {
        return Err(Blamed { place: end.place });
    }
    put_closing(builder);
    behind_unit(text, end.next)
}

// The parts of a unit from `start` on, and its end.
fn parts(text: &[u8], start: usize, builder: &mut TableBuilder) -> Result<(), Blamed>
    requires { (start ≤ length text.now) × CollectingAt 0 builder.old }
    ensures { Finishes (part_due 0) (rest_at text.now start) builder.old builder.new result }
{
    let mut at = start;
    let mut count: usize = 0;
    // From part to part, of some bytes each.
    loop {
        match tag_behind(text, at)? {
            AnyTag::Start(tag) => {
                at = part(text, tag, builder, count)?;
                count += 1;
            }
            AnyTag::Close(end) => {
                return unit_end(text, end, builder);
            }
        }
    }
}

// The unit whose start tag this is.
fn unit(text: &[u8], tag: StartTag, builder: &mut TableBuilder) -> Result<(), Blamed>
    requires { TagIn text.now tag × CollectingAt 0 builder.old }
    ensures { Finishes unit_due (start_tokens text.now tag) builder.old builder.new result }
{
    let mut slots = [ABSENT; SLOTS];
    let tagged = attributes_at(text, tag, &mut slots)?;
    if !is_word(tag.name.of(text), b"unit") {
        return Err(Blamed { place: tag.place });
    }
    let filled = Filled {
        slots: &slots,
        count: tagged.count,
    };
    let Some(letter) = unit_opening(filled) else {
        return Err(Blamed { place: tag.place });
    };
    put_opening(builder, letter);
    if tagged.short {
        put_closing(builder);
        return behind_unit(text, tagged.next);
    }
    parts(text, tagged.next, builder)
}

// A whole text, into a table that holds nothing as yet.
pub fn read_unit(text: &[u8], builder: &mut TableBuilder) -> Result<(), Blamed>
    requires { Holds builder.old [] [] }
    ensures { TextRead text.now builder.old builder.new result }
{
    match tag_behind(text, 0)? {
        AnyTag::Start(tag) => unit(text, tag, builder),
        AnyTag::Close(end) => Err(Blamed { place: end.place }),
    }
}
