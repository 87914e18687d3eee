// The next attribute of a start tag.
#![tactic(auto)]

ghost use Rattle.std.specs.Prelude.{◌≡◌, true, false, ◌≤◌, ◌<◌, length, get_or};
ghost use Rattle.xml.specs.Tokens.{in_tag, in_short, value_due};
ghost use Rattle.xml.specs.Characters.{starts_name};
ghost use Rattle.xml_names.specs.Names.{bytes_between, NameIn};
ghost use Rattle.xml_attribute.specs.Attribute.{Reading};

use xml_front::Flaw;
use xml_names::{Span, name_end, name_starts};
use xml_values::{blanks_end, value_end};

// An attribute: where its name stands, its value from `value` to the byte `mark`, and where the tag goes on.
#[derive(Clone, Copy)]
pub struct AttributeAt {
    pub name: Span,
    pub value: usize,
    pub mark: u8,
    pub next: usize,
}

// An attribute; the tag's end, with the place behind it, and whether in short form.
#[derive(Clone, Copy)]
pub enum Next {
    One(AttributeAt),
    End(usize, bool),
}

// Behind the / of a short form.
// A text and a place in it stay two parameters, as in xml_names.
fn short_end(text: &[u8], at: usize) -> Result<Next, Flaw>
    requires { at ≤ length text.now }
    ensures { Reading text.now in_short at result }
{
    if text.len() <= at {
        return Err(Flaw::Cut);
    }
    if text[at] == b'>' {
        return Ok(Next::End(at + 1, true));
    }
    Err(Flaw::Wrong)
}

// Behind the = of the attribute of this name.
fn value_at(text: &[u8], name: Span, at: usize) -> Result<Next, Flaw>
    requires { NameIn text.now name.from name.upto × (at ≤ length text.now) }
    ensures { Reading text.now (λ t. value_due t (bytes_between text.now name.from name.upto)) at result }
{
    let quoted = blanks_end(text, at);
    if text.len() <= quoted {
        return Err(Flaw::Cut);
    }
    let mark = text[quoted];
    if !((mark == b'"') | (mark == b'\'')) {
        return Err(Flaw::Wrong);
    }
    let value = quoted + 1;
    let close = value_end(text, value, mark)?;
    Ok(Next::One(AttributeAt {
        name,
        value,
        mark,
        next: close + 1,
    }))
}

// An attribute whose name begins here.
fn attribute_at(text: &[u8], at: usize) -> Result<Next, Flaw>
    requires { (at < length text.now) × (starts_name (get_or text.now at 0) ≡ true) }
    ensures { Reading text.now (λ t. in_tag t true) at result }
{
    let upto = name_end(text, at + 1);
    let equals = blanks_end(text, upto);
    if text.len() <= equals {
        return Err(Flaw::Cut);
    }
    if text[equals] != b'=' {
        return Err(Flaw::Wrong);
    }
    value_at(text, Span { from: at, upto }, equals + 1)
}

// What stands between the attributes of a start tag, from a place on.
pub fn next_attribute(text: &[u8], from: usize) -> Result<Next, Flaw>
    requires { from ≤ length text.now }
    ensures { Reading text.now (λ t. in_tag t false) from result }
{
    let at = blanks_end(text, from);
    if text.len() <= at {
        return Err(Flaw::Cut);
    }
    let b = text[at];
    if b == b'>' {
        return Ok(Next::End(at + 1, false));
    }
    if b == b'/' {
        return short_end(text, at + 1);
    }
    if !name_starts(b) {
        return Err(Flaw::Wrong);
    }
    if at <= from {
        return Err(Flaw::Wrong);
    }
    attribute_at(text, at)
}
