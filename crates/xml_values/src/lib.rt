// Blanks in a tag, and the values of its attributes.
#![tactic(auto)]

ghost use Rattle.std.specs.Prelude.{◌≡◌, ◌≤◌, length};
ghost use Rattle.xml.specs.Characters.{is_blank};
ghost use Rattle.xml_front.specs.Fronts.{told};
ghost use Rattle.xml_values.specs.Blanks.{BlanksEnd};
ghost use Rattle.xml_values.specs.Values.{value_front, ValueRead};

use xml_front::{Flaw, Front, front_character};
use xml_reference::front_reference;

// Whether a code point is a blank. No `matches!`: the patterns of a u32 would be four bare numbers.
pub fn is_blank_point(c: u32) -> bool
    ensures { result ≡ is_blank c }
{
    (c == b' ' as u32) | (c == b'\t' as u32) | (c == b'\n' as u32) | (c == b'\r' as u32)
}

pub fn is_blank(b: u8) -> bool
    ensures { result ≡ is_blank b }
{
    is_blank_point(u32::from(b))
}

// Where the blanks end that stand from a place on.
// A text and a place in it stay two parameters, as in xml_names.
pub fn blanks_end(text: &[u8], from: usize) -> usize
    requires { from ≤ length text.now }
    ensures { BlanksEnd text.now from result }
{
    let more = text[from..].iter().take_while(|b| is_blank(**b)).count();
    from + more
}

// What stands at the front of a value that goes on.
pub fn value_front(text: &[u8]) -> Result<Front, Flaw>
    requires { 1 ≤ length text.now }
    ensures { told result ≡ value_front text.now }
{
    let b = text[0];
    if b == b'<' {
        return Err(Flaw::Wrong);
    }
    if b == b'&' {
        return front_reference(&text[1..]);
    }
    front_character(text)
}

// Where the value from a place on ends that this quote ends: the place of the quote.
pub fn value_end(text: &[u8], from: usize, quote: u8) -> Result<usize, Flaw>
    requires { from ≤ length text.now }
    ensures { ValueRead text.now from quote result }
{
    let mut at = from;
    // From character to character, of some bytes each.
    while at < text.len() {
        if text[at] == quote {
            return Ok(at);
        }
        let front = value_front(&text[at..])?;
        at = at + 1 + front.more;
    }
    Err(Flaw::Cut)
}
