// Contents and the elements in them: a content calls for elements, and an element calls for content, the depth left
// falling.
#![tactic(auto)]

ghost use Rattle.std.specs.Prelude.{◌≤◌, length};
ghost use Rattle.xml_names.specs.Names.{NameIn};
ghost use Rattle.xml_element.specs.Opens.{spelled, TagIn, EndNameIn};
ghost use Rattle.xml_content.specs.Contents.{StepRead, CloseRead, ElementRead, ContentRead};

use table::Item;
use table_builder::TableBuilder;
use xml_element::{Blamed, EndTag, Opened, StartTag, ends_name, open_element};
use xml_names::Span;
use xml_piece::{Piece, piece_at};
use xml_records::{put_code_point, put_item};

// Behind a piece of content; at a start tag; at an end tag.
#[derive(Clone, Copy)]
pub enum Stepped {
    On(usize),
    Tag(StartTag),
    End(EndTag),
}

// One piece of a content but a start tag.
fn plain_piece(text: &[u8], at: usize, builder: &mut TableBuilder) -> Result<Stepped, Blamed>
    requires { at ≤ length text.now }
    ensures { StepRead text.now at builder.old builder.new result }
{
    match piece_at(text, at) {
        Piece::Start(name) => Ok(Stepped::Tag(StartTag { place: at, name })),
        Piece::Close(name, next) => Ok(Stepped::End(EndTag {
            place: at,
            name,
            next,
        })),
        Piece::Comment(next) => Ok(Stepped::On(next)),
        Piece::Character(c, next) | Piece::Reference(c, next) => {
            put_code_point(builder, c);
            Ok(Stepped::On(next))
        }
        Piece::CutTag => Err(Blamed { place: text.len() }),
        Piece::Fault(place) | Piece::TextFault(place) => Err(Blamed { place }),
        Piece::End => Err(Blamed { place: at }),
    }
}

// Behind the content of an element of this name: its end tag, and its last item.
fn close_element(
    text: &[u8],
    name: Span,
    end: EndTag,
    builder: &mut TableBuilder,
    last: Item,
) -> Result<usize, Blamed>
    requires { NameIn text.now name.from name.upto × EndNameIn text.now end }
    ensures { CloseRead text.now (spelled text.now name) end last builder.old builder.new result }
{
    if !ends_name(text, name, end) {
        return Err(Blamed { place: end.place });
    }
    put_item(builder, last);
    Ok(end.next)
}

// The element whose start tag this is. The place behind it.
#[cycle(content_element)]
fn element(
    text: &[u8],
    tag: StartTag,
    builder: &mut TableBuilder,
    depth: usize,
) -> Result<usize, Blamed>
    requires { TagIn text.now tag }
    ensures { ElementRead text.now tag depth builder.old builder.new result }
{
    match open_element(text, tag, builder)? {
        Opened::Single(next) => Ok(next),
        Opened::Nested(opened) => {
            if depth == 0 {
                return Err(Blamed { place: tag.place });
            }
            put_item(builder, opened.start);
            if opened.short {
                put_item(builder, opened.end);
                return Ok(opened.next);
            }
            let end = content(text, opened.next, builder, depth - 1)?;
            close_element(text, tag.name, end, builder, opened.end)
        }
    }
}

// The content that starts at `start`, with so many more elements allowed in each other. The end tag behind it.
#[cycle(content_element)]
pub fn content(
    text: &[u8],
    start: usize,
    builder: &mut TableBuilder,
    depth: usize,
) -> Result<EndTag, Blamed>
    requires { start ≤ length text.now }
    ensures { ContentRead text.now start depth builder.old builder.new result }
{
    let mut at = start;
    // From piece to piece, of some bytes each.
    loop {
        match plain_piece(text, at, builder)? {
            Stepped::On(next) => {
                at = next;
            }
            Stepped::Tag(tag) => {
                at = element(text, tag, builder, depth)?;
            }
            Stepped::End(end) => {
                return Ok(end);
            }
        }
    }
}
