// A start tag in a content, and the element that it opens.
#![tactic(auto)]

ghost use Rattle.std.specs.Prelude.{[], ◌≡◌, ◌≤◌, length};
ghost use Rattle.xliff.specs.Bytes.{equal};
ghost use Rattle.xml_slots.specs.Slots.{slots_of};
ghost use Rattle.xml_piece.specs.Pieces.{rest_at};
ghost use Rattle.xml_element.specs.Opens.{spelled, TagIn, EndNameIn, AttributesRead, TagBlamed, EmptyRead, SingleRead, OpenRead};
ghost use Rattle.xml_names.specs.Names.{NameIn};

use table::Item;
use table_builder::TableBuilder;
use xml_attributes::{Tagged, read_attributes};
use xml_elements::{Filled, Inline, inline_element};
use xml_names::Span;
use xml_piece::{Piece, piece_at};
use xml_records::put_item;
use xml_slots::{ABSENT, SLOTS, is_word};

// The place of a text that is at fault.
#[derive(Clone, Copy, Debug, PartialEq, Eq)]
pub struct Blamed {
    pub place: usize,
}

// A start tag: its place, and where its name stands; its attributes begin behind that.
#[derive(Clone, Copy)]
pub struct StartTag {
    pub place: usize,
    pub name: Span,
}

// An end tag: its place, where its name stands, and the place behind it.
#[derive(Clone, Copy)]
pub struct EndTag {
    pub place: usize,
    pub name: Span,
    pub next: usize,
}

// A whole start tag of pc or mrk: the items at the element's two ends, the place behind the tag, and whether it is in
// the short form.
#[derive(Clone, Copy)]
pub struct NestedTag {
    pub start: Item,
    pub end: Item,
    pub next: usize,
    pub short: bool,
}

// Behind an empty element; at the content of another.
#[derive(Clone, Copy)]
pub enum Opened {
    Single(usize),
    Nested(NestedTag),
}

// Whether the end tag has this name.
pub fn ends_name(text: &[u8], name: Span, end: EndTag) -> bool
    requires { NameIn text.now name.from name.upto × EndNameIn text.now end }
    ensures { result ≡ equal (spelled text.now end.name) (spelled text.now name) }
{
    is_word(end.name.of(text), name.of(text))
}

// The attributes of a start tag, in slots. It is blamed where it is at fault, and the text's end where that cuts it.
// A tag does not hold the text: that it stands in it (TagIn, EndNameIn) is asked wherever both come.
pub fn attributes_at(text: &[u8], tag: StartTag, slots: &mut [u32]) -> Result<Tagged, Blamed>
    requires { (tag.name.upto ≤ length text.now) × (slots.old ≡ slots_of []) }
    ensures { AttributesRead text.now tag slots.new result }
{
    match read_attributes(text, tag.name.upto, slots) {
        Ok(tagged) => Ok(tagged),
        Err(flaw) => Err(Blamed {
            place: flaw.place(tag.place, text.len()),
        }),
    }
}

// The place blamed for a start tag where none may stand: the tag, or the text's end where that cuts it.
pub fn blamed_tag(text: &[u8], tag: StartTag) -> Blamed
    requires { tag.name.upto ≤ length text.now }
    ensures { TagBlamed text.now tag result.place }
{
    let mut slots = [ABSENT; SLOTS];
    match attributes_at(text, tag, &mut slots) {
        Ok(_) => Blamed { place: tag.place },
        Err(blamed) => blamed,
    }
}

// Behind the start tag of an empty element of this name: comments, and its end tag. The place behind that.
fn empty_end(text: &[u8], name: Span, start: usize) -> Result<usize, Blamed>
    requires { NameIn text.now name.from name.upto × (start ≤ length text.now) }
    ensures { EmptyRead text.now (spelled text.now name) start (rest_at text.now start) result }
{
    let mut at = start;
    // From piece to piece, of some bytes each.
    loop {
        match piece_at(text, at) {
            Piece::Start(inner) => {
                return Err(blamed_tag(
                    text,
                    StartTag {
                        place: at,
                        name: inner,
                    },
                ));
            }
            Piece::Close(other, next) => {
                let end = EndTag {
                    place: at,
                    name: other,
                    next,
                };
                if ends_name(text, name, end) {
                    return Ok(next);
                }
                return Err(Blamed { place: at });
            }
            Piece::Comment(next) => {
                at = next;
            }
            Piece::CutTag => {
                return Err(Blamed { place: text.len() });
            }
            Piece::Fault(place) => {
                return Err(Blamed { place });
            }
            Piece::Character(_, _) | Piece::Reference(_, _) | Piece::TextFault(_) | Piece::End => {
                return Err(Blamed { place: at });
            }
        }
    }
}

// The end of an empty element: in the short form its start tag's.
fn single_end(text: &[u8], name: Span, next: usize, short: bool) -> Result<usize, Blamed>
    requires { NameIn text.now name.from name.upto × (next ≤ length text.now) }
    ensures { SingleRead text.now (spelled text.now name) next short result }
{
    if short {
        return Ok(next);
    }
    empty_end(text, name, next)
}

// A start tag in a content, and what it opens.
pub fn open_element(
    text: &[u8],
    tag: StartTag,
    builder: &mut TableBuilder,
) -> Result<Opened, Blamed>
    requires { TagIn text.now tag }
    ensures { OpenRead text.now tag builder.old builder.new result }
{
    let mut slots = [ABSENT; SLOTS];
    let tagged = attributes_at(text, tag, &mut slots)?;
    let filled = Filled {
        slots: &slots,
        count: tagged.count,
    };
    let Some(inline) = inline_element(tag.name.of(text), filled) else {
        return Err(Blamed { place: tag.place });
    };
    match inline {
        Inline::Single(x) => {
            let behind = single_end(text, tag.name, tagged.next, tagged.short)?;
            put_item(builder, x);
            Ok(Opened::Single(behind))
        }
        Inline::Nested(start, end) => Ok(Opened::Nested(NestedTag {
            start,
            end,
            next: tagged.next,
            short: tagged.short,
        })),
    }
}
