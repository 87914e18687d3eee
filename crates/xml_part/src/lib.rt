// A part of a unit: its head, its source and its target, and what stands between them.
#![tactic(auto)]

ghost use Rattle.std.specs.Prelude.{[], ◌∷◌, suc, ◌<◌, ◌≤◌, length};
ghost use Rattle.xliff.specs.Encode.{target_head};
ghost use Rattle.xml.specs.Elements.{part_due, target_due};
ghost use Rattle.xml_names.specs.Names.{NameIn};
ghost use Rattle.xml_piece.specs.Pieces.{rest_at};
ghost use Rattle.xml_records.specs.Collecting.{Collects};
ghost use Rattle.xml_element.specs.Opens.{spelled, TagIn, start_tokens};
ghost use Rattle.xml_part.specs.Parts.{OuterRead, TagRead, CollectingAt, order_or, HeadPut, SideRead, Steps, SourceSteps, TargetSteps, HeadSteps, PartEnds};

use table_builder::TableBuilder;
use xml_attributes::Tagged;
use xml_content::content;
use xml_element::{Blamed, EndTag, StartTag, attributes_at, blamed_tag, ends_name};
use xml_elements::Filled;
use xml_heads::{Head, part_head, target_order};
use xml_names::Span;
use xml_piece::{Piece, piece_at};
use xml_records::{put_ignorable, put_segment, put_target_head};
use xml_slots::{ABSENT, SLOTS, is_word};
use xml_values::is_blank_point;

// "to depth 32 of pc and mrk"
const MOST_DEPTH: usize = 32;

// Behind blanks and comments: a start tag, an end tag, the place of a tag that the text's end cuts, or of the text's
// end. (The last two are no errors here: behind the unit the text ends, and a cut tag is blamed at another place.)
#[derive(Clone, Copy)]
pub enum Outer {
    Start(StartTag),
    Close(EndTag),
    Cut(usize),
    End(usize),
}

// A start tag or an end tag.
#[derive(Clone, Copy)]
pub enum AnyTag {
    Start(StartTag),
    Close(EndTag),
}

// What stands behind blanks and comments from `start` on.
// A text and a place in it stay two parameters, as in xml_names.
pub fn outer_at(text: &[u8], start: usize) -> Result<Outer, Blamed>
    requires { start ≤ length text.now }
    ensures { OuterRead text.now start result }
{
    let mut at = start;
    // From piece to piece, of some bytes each.
    loop {
        match piece_at(text, at) {
            Piece::Start(name) => {
                return Ok(Outer::Start(StartTag { place: at, name }));
            }
            Piece::Close(name, next) => {
                return Ok(Outer::Close(EndTag {
                    place: at,
                    name,
                    next,
                }));
            }
            Piece::Comment(next) => {
                at = next;
            }
            Piece::Character(c, next) => {
                if !is_blank_point(c) {
                    return Err(Blamed { place: at });
                }
                at = next;
            }
            Piece::Reference(_, _) | Piece::TextFault(_) => {
                return Err(Blamed { place: at });
            }
            Piece::CutTag => {
                return Ok(Outer::Cut(at));
            }
            Piece::Fault(place) => {
                return Err(Blamed { place });
            }
            Piece::End => {
                return Ok(Outer::End(at));
            }
        }
    }
}

// The tag behind blanks and comments, where one is due. The text's end is blamed, before a tag or within it.
pub fn tag_behind(text: &[u8], start: usize) -> Result<AnyTag, Blamed>
    requires { start ≤ length text.now }
    ensures { TagRead text.now start result }
{
    match outer_at(text, start)? {
        Outer::Start(tag) => Ok(AnyTag::Start(tag)),
        Outer::Close(end) => Ok(AnyTag::Close(end)),
        Outer::Cut(_) => Err(Blamed { place: text.len() }),
        Outer::End(place) => Err(Blamed { place }),
    }
}

// Behind the start tag of a source or a target of this name: its content, and its end tag. The place behind that.
fn side(
    text: &[u8],
    tagged: Tagged,
    name: &[u8],
    builder: &mut TableBuilder,
) -> Result<usize, Blamed>
    requires { tagged.next ≤ length text.now }
    ensures { SideRead text.now tagged.next tagged.short name.now builder.old builder.new result }
{
    if tagged.short {
        return Ok(tagged.next);
    }
    let end = content(text, tagged.next, builder, MOST_DEPTH)?;
    if !is_word(end.name.of(text), name) {
        return Err(Blamed { place: end.place });
    }
    Ok(end.next)
}

// The source whose start tag this is.
fn source_at(text: &[u8], tag: StartTag, builder: &mut TableBuilder) -> Result<usize, Blamed>
    requires { TagIn text.now tag }
    ensures { SourceSteps text.now tag.name.upto (start_tokens text.now tag) builder.old builder.new result }
{
    let mut slots = [ABSENT; SLOTS];
    let tagged = attributes_at(text, tag, &mut slots)?;
    if is_word(tag.name.of(text), b"source") & (tagged.count == 0) {
        return side(text, tagged, b"source", builder);
    }
    Err(Blamed { place: tag.place })
}

// TG with this order, or the part's position. Beyond a limit the position may be larger than an order can be.
// The position stays beside the builder, which counts parts only within the limits of a table.
fn put_order(builder: &mut TableBuilder, order: Option<u16>, position: usize)
    requires { CollectingAt position builder.old }
    ensures { Collects (target_head (order_or order position) ∷ []) builder.old builder.new }
{
    match order {
        Some(q) => put_target_head(builder, q),
        None => {
            if !builder.is_over() {
                put_target_head(builder, position as u16);
            }
        }
    }
}

// The target whose start tag this is, of the part at this position.
fn target_at(
    text: &[u8],
    tag: StartTag,
    builder: &mut TableBuilder,
    position: usize,
) -> Result<usize, Blamed>
    requires { TagIn text.now tag × CollectingAt position builder.old }
    ensures { TargetSteps text.now tag.name.upto position (start_tokens text.now tag) builder.old builder.new result }
{
    let mut slots = [ABSENT; SLOTS];
    let tagged = attributes_at(text, tag, &mut slots)?;
    if !is_word(tag.name.of(text), b"target") {
        return Err(Blamed { place: tag.place });
    }
    let filled = Filled {
        slots: &slots,
        count: tagged.count,
    };
    let Some(order) = target_order(filled) else {
        return Err(Blamed { place: tag.place });
    };
    put_order(builder, order, position);
    side(text, tagged, b"target", builder)
}

// The end tag of the part of this name.
// Like behind_source but for a start tag, which is blamed here: as one function no plainer.
fn part_end(text: &[u8], start: usize, name: Span) -> Result<usize, Blamed>
    requires { (start ≤ length text.now) × NameIn text.now name.from name.upto }
    ensures { PartEnds text.now start (spelled text.now name) result }
{
    match tag_behind(text, start)? {
        AnyTag::Start(tag) => Err(blamed_tag(text, tag)),
        AnyTag::Close(end) => {
            if !ends_name(text, name, end) {
                return Err(Blamed { place: end.place });
            }
            Ok(end.next)
        }
    }
}

// Behind the source of a part of this name: its target, if there is one, and its end.
fn behind_source(
    text: &[u8],
    start: usize,
    name: Span,
    builder: &mut TableBuilder,
    position: usize,
) -> Result<usize, Blamed>
    requires { (start ≤ length text.now) × NameIn text.now name.from name.upto × CollectingAt position builder.old }
    ensures { Steps text.now start (target_due position (spelled text.now name)) (rest_at text.now start) 0
        (part_due position) builder.old builder.new result }
{
    match tag_behind(text, start)? {
        AnyTag::Start(tag) => {
            let next = target_at(text, tag, builder, position)?;
            part_end(text, next, name)
        }
        AnyTag::Close(end) => {
            if !ends_name(text, name, end) {
                return Err(Blamed { place: end.place });
            }
            Ok(end.next)
        }
    }
}

// The source of a part.
fn source_of(text: &[u8], start: usize, builder: &mut TableBuilder) -> Result<usize, Blamed>
    requires { start ≤ length text.now }
    ensures { SourceSteps text.now start (rest_at text.now start) builder.old builder.new result }
{
    match tag_behind(text, start)? {
        AnyTag::Start(tag) => source_at(text, tag, builder),
        AnyTag::Close(end) => Err(Blamed { place: end.place }),
    }
}

// SG or IG.
fn put_head(builder: &mut TableBuilder, head: Head)
    ensures { HeadPut head builder.old builder.new }
{
    match head {
        Head::Segment(f) => put_segment(builder, f),
        Head::Ignorable(id) => put_ignorable(builder, id),
    }
}

// The head of a part, by its start tag. In the short form it has no source.
fn head(text: &[u8], tag: StartTag, builder: &mut TableBuilder) -> Result<usize, Blamed>
    requires { TagIn text.now tag }
    ensures { HeadSteps text.now tag.name.upto (spelled text.now tag.name) (start_tokens text.now tag)
        builder.old builder.new result }
{
    let mut slots = [ABSENT; SLOTS];
    let tagged = attributes_at(text, tag, &mut slots)?;
    if tagged.short {
        return Err(Blamed { place: tag.place });
    }
    let filled = Filled {
        slots: &slots,
        count: tagged.count,
    };
    let Some(head) = part_head(tag.name.of(text), filled) else {
        return Err(Blamed { place: tag.place });
    };
    put_head(builder, head);
    Ok(tagged.next)
}

// The part whose start tag this is, with so many parts before it. The place behind it.
pub fn part(
    text: &[u8],
    tag: StartTag,
    builder: &mut TableBuilder,
    before: usize,
) -> Result<usize, Blamed>
    requires { TagIn text.now tag × (before < tag.name.upto) × CollectingAt before builder.old }
    ensures { Steps text.now tag.name.upto (part_due before) (start_tokens text.now tag) 1 (part_due (suc before))
        builder.old builder.new result }
{
    let next = head(text, tag, builder)?;
    let behind = source_of(text, next, builder)?;
    behind_source(text, behind, tag.name, builder, before + 1)
}
