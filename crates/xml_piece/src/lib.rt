// What stands at a place outside of tags and comments.
#![tactic(auto)]

ghost use Rattle.std.specs.Prelude.{◌≡◌, ◌≤◌, ◌<◌, length, get_or};
ghost use Rattle.xml.specs.Characters.{'<', '&', carriage_return};
ghost use Rattle.xml_piece.specs.Pieces.{Plain, PieceRead};

use xml_front::{begins, front_character};
use xml_names::Span;
use xml_reference::front_reference;
use xml_tag::{Markup, tag_at};

// A start tag: where its name stands, its attributes begin behind that. An end tag: its name, and the place behind it.
// A comment, a character and a reference, each with the place behind it. A tag that the text's end cuts. A tag or a
// comment at fault; a character or a reference that is at fault or cut: the place blamed where text may stand. The
// text's end. (No Result: each reader of pieces goes another way at each fault, so that no `?` would serve.)
#[derive(Clone, Copy)]
pub enum Piece {
    Start(Span),
    Close(Span, usize),
    Comment(usize),
    Character(u32, usize),
    Reference(u32, usize),
    CutTag,
    Fault(usize),
    TextFault(usize),
    End,
}

// What begins with the < at this place.
// Not From: the promise is about the text and the place, which a tag does not hold. Both stay parameters.
fn markup_at(text: &[u8], at: usize) -> Piece
    requires { (at < length text.now) × (get_or text.now at 0 ≡ '<') }
    ensures { PieceRead text.now at result }
{
    match tag_at(text, at) {
        Markup::Start(name) => Piece::Start(name),
        Markup::Close(name, next) => Piece::Close(name, next),
        Markup::Comment(next) => Piece::Comment(next),
        Markup::Short => Piece::CutTag,
        Markup::Fault(place) => Piece::Fault(place),
    }
}

// The reference that begins with the & at this place.
fn reference_at(text: &[u8], at: usize) -> Piece
    requires { (at < length text.now) × (get_or text.now at 0 ≡ '&') }
    ensures { PieceRead text.now at result }
{
    let behind = at + 1;
    match front_reference(&text[behind..]) {
        Ok(front) => Piece::Reference(front.point, behind + front.more),
        Err(flaw) => Piece::TextFault(flaw.place(at, text.len())),
    }
}

// The line end that begins with the carriage return at this place: CR LF or CR, it is one line feed.
fn line_end_at(text: &[u8], at: usize) -> Piece
    requires { (at < length text.now) × (get_or text.now at 0 ≡ carriage_return) }
    ensures { PieceRead text.now at result }
{
    let behind = at + 1;
    if begins(b"\n", &text[behind..]) {
        let next = behind + 1;
        return Piece::Character(10, next);
    }
    Piece::Character(10, behind)
}

// The character at this place, where no tag, reference, ]]> or line end stands.
// Like reference_at but for the reader, its slice and the case: as parameters these would be no plainer.
fn character_at(text: &[u8], at: usize) -> Piece
    requires { Plain text.now at }
    ensures { PieceRead text.now at result }
{
    let behind = at + 1;
    match front_character(&text[at..]) {
        Ok(front) => Piece::Character(front.point, behind + front.more),
        Err(flaw) => Piece::TextFault(flaw.place(at, text.len())),
    }
}

// What stands at `at`.
pub fn piece_at(text: &[u8], at: usize) -> Piece
    requires { at ≤ length text.now }
    ensures { PieceRead text.now at result }
{
    if text.len() <= at {
        return Piece::End;
    }
    let b = text[at];
    if b == b'<' {
        return markup_at(text, at);
    }
    if b == b'&' {
        return reference_at(text, at);
    }
    if begins(b"]]>", &text[at..]) {
        return Piece::TextFault(at);
    }
    if b == b'\r' {
        return line_end_at(text, at);
    }
    character_at(text, at)
}
