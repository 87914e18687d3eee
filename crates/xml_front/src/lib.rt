// The character at the front of bytes, as XML 1.0 allows it.
#![tactic(auto)]

ghost use Rattle.std.specs.Prelude.{◌≡◌, [], ◌∷◌, ◌++◌, ◌≤◌, length, get_or};
ghost use Rattle.xliff.specs.Text.{spelled};
ghost use Rattle.xml.specs.Characters.{begins, part_of, cut_character, front_character};
ghost use Rattle.xml_front.specs.Fronts.{told, place_blamed};

use text::{char_of, xml_char};

// A code point at the front, and how many bytes it takes after the first.
#[derive(Clone, Copy)]
pub struct Front {
    pub point: u32,
    pub more: usize,
}

// Why there is none: the bytes end within it, or nothing that XML allows stands there.
#[derive(Clone, Copy, PartialEq, Eq, Debug)]
pub enum Flaw {
    Cut,
    Wrong,
}

impl Flaw {
    // The place blamed for it: the text's end where that cuts what begins at a place, else that place.
    pub fn place(self, at: usize, end: usize) -> usize
        ensures { result ≡ place_blamed self at end }
    {
        match self {
            Flaw::Cut => end,
            Flaw::Wrong => at,
        }
    }
}

// Whether a text begins with a word.
pub fn begins(word: &[u8], text: &[u8]) -> bool
    ensures { result ≡ begins word.now text.now }
{
    text.starts_with(word)
}

// The byte at a place, or another where there is none.
fn byte_or(text: &[u8], at: usize, pad: u8) -> u8
    ensures { result ≡ get_or text.now at pad }
{
    text.get(at).copied().unwrap_or(pad)
}

// Whether the bytes are the beginning of a character and not the whole of it: of the character that stands there once
// they are filled up to four by a byte that goes on with one.
// That a byte is there is asked by all three readers here: a type of texts that have one is no plainer.
fn goes_on(text: &[u8], pad: u8) -> bool
    requires { (1 ≤ length text.now) × (0x80 ≤ pad) × (pad ≤ 0xBF) }
    ensures { result ≡ part_of text.now (spelled (text.now ++ (pad ∷ pad ∷ pad ∷ []))) }
{
    let filled = [
        byte_or(text, 0, pad),
        byte_or(text, 1, pad),
        byte_or(text, 2, pad),
        byte_or(text, 3, pad),
    ];
    match char_of(&filled) {
        Some(whole) => text.len() < whole.width,
        None => false,
    }
}

// Whether the bytes end within a character: they go on to one with the lowest or with the highest byte, if at all.
fn cut_in(text: &[u8]) -> bool
    requires { 1 ≤ length text.now }
    ensures { result ≡ cut_character text.now }
{
    goes_on(text, 0x80) | goes_on(text, 0xBF)
}

// The character at the front of the text. One that XML forbids stands there whole, so it is not cut.
pub fn front_character(text: &[u8]) -> Result<Front, Flaw>
    requires { 1 ≤ length text.now }
    ensures { told result ≡ front_character text.now }
{
    match char_of(text) {
        Some(c) if xml_char(c.point) => Ok(Front {
            point: c.point,
            more: c.width - 1,
        }),
        None if cut_in(text) => Err(Flaw::Cut),
        _ => Err(Flaw::Wrong),
    }
}
