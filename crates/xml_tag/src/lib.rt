// What begins with a < outside of tags: a start tag, an end tag or a comment.
#![tactic(auto)]

ghost use Rattle.std.specs.Prelude.{◌≡◌, true, false, [], ◌≤◌, ◌<◌, length, get_or, drop};
ghost use Rattle.xml.specs.Characters.{'<', begins};
ghost use Rattle.xml.specs.Tokens.{in_name, outside_tags};
ghost use Rattle.xml_tag.specs.Markups.{Marked, InComment, hyphens};

use xml_front::{begins, front_character};
use xml_names::{Span, name_end, name_starts};
use xml_values::blanks_end;

// A start tag: where its name stands, its attributes begin behind that. An end tag: its name, and the place behind it.
// A comment: the place behind it. The text ends in the tag. A place at fault. (No Result: no step here passes on a fault
// of another by `?`, and the one caller goes through all five cases.)
#[derive(Clone, Copy)]
pub enum Markup {
    Start(Span),
    Close(Span, usize),
    Comment(usize),
    Short,
    Fault(usize),
}

// Behind the / of the end tag at `place`.
// A text and a place in it stay two parameters, as in xml_names.
fn close_at(text: &[u8], place: usize, at: usize) -> Markup
    requires { at ≤ length text.now }
    ensures { Marked text.now (in_name place true []) place at result }
{
    if text.len() <= at {
        return Markup::Short;
    }
    if !name_starts(text[at]) {
        return Markup::Fault(place);
    }
    let upto = name_end(text, at + 1);
    let end = blanks_end(text, upto);
    if text.len() <= end {
        return Markup::Short;
    }
    if text[end] == b'>' {
        return Markup::Close(Span { from: at, upto }, end + 1);
    }
    Markup::Fault(place)
}

// Behind the < of the tag at `place`.
fn open_at(text: &[u8], place: usize, at: usize) -> Markup
    requires { at < length text.now }
    ensures { Marked text.now (in_name place false []) place at result }
{
    let b = text[at];
    if name_starts(b) {
        return Markup::Start(Span {
            from: at,
            upto: name_end(text, at + 1),
        });
    }
    if b == b'/' {
        return close_at(text, place, at + 1);
    }
    Markup::Fault(place)
}

// Two hyphens in a comment.
fn hyphens_at(text: &[u8], at: usize) -> Markup
    requires { (at < length text.now) × (begins hyphens (drop at text.now) ≡ true) }
    ensures { InComment text.now at result }
{
    if begins(b"-->", &text[at..]) {
        return Markup::Comment(at + 3);
    }
    if text.len() - at == 2 {
        return Markup::Fault(text.len());
    }
    Markup::Fault(at)
}

// In a comment, from a place on.
fn comment_at(text: &[u8], from: usize) -> Markup
    requires { from ≤ length text.now }
    ensures { InComment text.now from result }
{
    let mut at = from;
    // From character to character, of some bytes each.
    while at < text.len() {
        if begins(b"--", &text[at..]) {
            return hyphens_at(text, at);
        }
        match front_character(&text[at..]) {
            Ok(front) => {
                at = at + 1 + front.more;
            }
            Err(flaw) => {
                return Markup::Fault(flaw.place(at, text.len()));
            }
        }
    }
    Markup::Fault(text.len())
}

// What begins with the < at this place.
pub fn tag_at(text: &[u8], at: usize) -> Markup
    requires { (at < length text.now) × (get_or text.now at 0 ≡ '<') }
    ensures { Marked text.now outside_tags at at result }
{
    let behind = at + 1;
    if begins(b"!--", &text[behind..]) {
        return comment_at(text, behind + 3);
    }
    if begins(&text[behind..], b"!--") {
        return Markup::Fault(text.len());
    }
    open_at(text, at, behind)
}
