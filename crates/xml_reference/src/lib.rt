// References: the five entities and numeric ones, behind their &.
#![tactic(auto)]

ghost use Rattle.std.specs.Prelude.{◌≡◌, false, [], ◌+◌, ◌*◌, ◌≤◌, length, drop, is_some};
ghost use Rattle.std.specs.Option.{unwrap_or};
ghost use Rattle.xml.specs.Characters.{only_name, entity, digit_value, numeric, numeric_reference, front_reference};
ghost use Rattle.xml_front.specs.Fronts.{told, number_told};
ghost use Rattle.xml_reference.specs.References.{base_of, all_name, EntityTold, capped, numeric_end};

use text::xml_char;
use xml_front::{Flaw, Front, begins};
use xml_names::{name_goes_on, name_starts};

// Whether all bytes go on with a name.
fn goes_to_end(text: &[u8]) -> bool
    ensures { result ≡ all_name text.now }
{
    text.iter().all(|b| name_goes_on(*b))
}

// Whether the bytes are a name, or the beginning of one.
// That a byte is there is asked by three functions: a type of texts that have one is no plainer.
fn is_only_name(text: &[u8]) -> bool
    requires { 1 ≤ length text.now }
    ensures { result ≡ only_name [] text.now }
{
    name_starts(text[0]) & goes_to_end(&text[1..])
}

// The first of these entities, each with what it stands for, that is at the front.
fn entity_of(text: &[u8], entities: &[(&[u8], u8)]) -> Option<Front>
    ensures { EntityTold result entities.now text.now }
{
    for (name, c) in entities {
        if begins(name, text) {
            return Some(Front {
                point: u32::from(*c),
                more: name.len(),
            });
        }
    }
    None
}

// The five entities.
fn entity_at(text: &[u8]) -> Result<Front, Flaw>
    requires { 1 ≤ length text.now }
    ensures { told result ≡ entity text.now }
{
    let entities: [(&[u8], u8); 5] = [
        (b"amp;", b'&'),
        (b"lt;", b'<'),
        (b"gt;", b'>'),
        (b"quot;", b'"'),
        (b"apos;", b'\''),
    ];
    match entity_of(text, &entities) {
        Some(front) => Ok(front),
        None if is_only_name(text) => Err(Flaw::Cut),
        None => Err(Flaw::Wrong),
    }
}

// A flag is handed on, not the base: so it is 10 or 16 without a clause in each contract.
fn base_of(hex: bool) -> u32
    ensures { result ≡ base_of hex }
{
    if hex { 16 } else { 10 }
}

// A digit's value.
// By ranges and no `to_digit`: the edit hex_digit_one_more plants a wrong value in that of A to F.
fn digit_of(hex: bool, b: u8) -> Option<u32>
    ensures { number_told result ≡ digit_value (base_of hex) b }
{
    if (b'0' <= b) & (b <= b'9') {
        return Some(u32::from(b - b'0'));
    }
    if hex & ((b'A' <= b) & (b <= b'F')) {
        return Some(u32::from(b - (b'A' - 10)));
    }
    if hex & ((b'a' <= b) & (b <= b'f')) {
        return Some(u32::from(b - (b'a' - 10)));
    }
    None
}

// One digit more; what no code point reaches stays there.
fn grown(hex: bool, value: u32, digit: u32) -> u32
    requires { (value ≤ 0x110000) × (digit ≤ 16) }
    ensures { (result ≡ capped (value * base_of hex + digit)) × (result ≤ 0x110000) }
{
    (value * base_of(hex) + digit).min(0x110000)
}

// Behind the digits: the value of a reference that takes so many bytes, if there were digits and it ends here.
fn numeric_end(b: u8, value: Option<u32>, size: usize) -> Result<Front, Flaw>
    ensures { told result ≡ numeric_end b (is_some value) (unwrap_or value 0) size }
{
    match value {
        Some(point) if (b == b';') & xml_char(point) => Ok(Front { point, more: size }),
        _ => Err(Flaw::Wrong),
    }
}

// The digits of a numeric reference, from a place on.
fn numeric_at(text: &[u8], from: usize, hex: bool) -> Result<Front, Flaw>
    requires { from ≤ length text.now }
    ensures { told result ≡ numeric (base_of hex) false 0 (from + 1) (drop from text.now) }
{
    let mut value: Option<u32> = None;
    for at in from..text.len() {
        let b = text[at];
        let Some(digit) = digit_of(hex, b) else {
            return numeric_end(b, value, at + 1);
        };
        value = Some(grown(hex, value.unwrap_or(0), digit));
    }
    Err(Flaw::Cut)
}

// A numeric reference, behind its &.
fn numeric_by(text: &[u8]) -> Result<Front, Flaw>
    requires { 1 ≤ length text.now }
    ensures { told result ≡ numeric_reference (drop 1 text.now) }
{
    if text.len() < 2 {
        return Err(Flaw::Cut);
    }
    if text[1] == b'x' {
        return numeric_at(text, 2, true);
    }
    numeric_at(text, 1, false)
}

// The reference at the front of the text, behind its &.
pub fn front_reference(text: &[u8]) -> Result<Front, Flaw>
    ensures { told result ≡ front_reference text.now }
{
    if text.len() < 1 {
        return Err(Flaw::Cut);
    }
    if text[0] == b'#' {
        return numeric_by(text);
    }
    entity_at(text)
}
