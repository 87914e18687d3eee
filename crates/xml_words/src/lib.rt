// The values of attributes, references in them read: numbers, words and hexadecimal digits.
#![tactic(auto)]

ghost use Rattle.std.specs.Prelude.{◌≡◌, true, false, ◌+◌, ◌≤◌, ◌<◌, length, drop};
ghost use Rattle.xliff.specs.Bytes.{equal};
ghost use Rattle.xliff.specs.Text.{between};
ghost use Rattle.xml.specs.Attributes.{number, upper_hex, hexadecimal, letter_of, yes_no, yes_first_no, states};
ghost use Rattle.xml_front.specs.Fronts.{number_told};
ghost use Rattle.xml_values.specs.Values.{value_codes, value_code};
ghost use Rattle.xml_slots.specs.Slots.{value_read, or_bad};
ghost use Rattle.xml_words.specs.Codes.{CodeRead, codes_of, spelled_out};

mod value;

use value::Value;
use xml_slots::{BAD, CAN_REORDER, HEX, ID, START_REF, STATE};
use xml_values::{is_blank_point, value_front};

// A code point of a value, and the place behind it.
#[derive(Clone, Copy)]
pub struct Code {
    pub point: u32,
    pub next: usize,
}

// A tab or a line end that stands as such in a value is a blank.
fn code_of(first: u8, c: u32) -> u32
    ensures { result ≡ value_code first c }
{
    if first == b'&' {
        return c;
    }
    if is_blank_point(c) {
        return b' ' as u32;
    }
    c
}

fn is_digit(c: u32) -> bool
    ensures { result ≡ between 48 c 57 }
{
    (b'0' as u32 <= c) & (c <= b'9' as u32)
}

// A digit's value.
// By hand: the library's `to_digit` takes lower case digits too.
fn upper_digit(c: u32) -> Option<u32>
    ensures { number_told result ≡ upper_hex c }
{
    if is_digit(c) {
        return Some(c - b'0' as u32);
    }
    if (b'A' as u32 <= c) & (c <= b'F' as u32) {
        return Some(c - (b'A' as u32 - 10));
    }
    None
}

impl Value<'_> {
    // The code point of a value that stands at a place, unless the value is over.
    fn code_at(self, at: usize) -> Option<Code>
        requires { at ≤ length self.text.now }
        ensures { CodeRead self.entry.text.now at self.entry.quote result }
    {
        if self.text.len() <= at {
            return None;
        }
        let first = self.text[at];
        if first == self.quote {
            return None;
        }
        let Ok(front) = value_front(&self.text[at..]) else {
            return None;
        };
        Some(Code {
            point: code_of(first, front.point),
            next: at + 1 + front.more,
        })
    }

    // Whether a value is this word.
    fn is(self, word: &[u8]) -> bool
        ensures { result ≡ equal (codes_of self.entry) word.now }
    {
        let mut at = self.start;
        for k in 0..word.len() {
            match self.code_at(at) {
                Some(code) if code.point == u32::from(word[k]) => {
                    at = code.next;
                }
                _ => {
                    return false;
                }
            }
        }
        self.code_at(at).is_none()
    }

    // "decimal, 1 to 65535, no leading zero"
    // `n` is 0 exactly before the first digit, since none begins with 0: an Option would say it twice.
    fn number(self) -> Option<u32>
        ensures { number_told result ≡ number (codes_of self.entry) }
    {
        let mut at = self.start;
        let mut n: u32 = 0;
        while let Some(code) = self.code_at(at) {
            let c = code.point;
            if !is_digit(c) | ((n == 0) & (c == b'0' as u32)) {
                return None;
            }
            n = n * 10 + (c - b'0' as u32);
            if 65535 < n {
                return None;
            }
            at = code.next;
        }
        if n == 0 { None } else { Some(n) }
    }

    // "four upper hexadecimal digits"
    // The digits are counted by hand: they come one by one out of the value, and no slice has them.
    fn hexadecimal(self) -> Option<u32>
        ensures { number_told result ≡ hexadecimal (codes_of self.entry) }
    {
        let mut at = self.start;
        let mut n: u32 = 0;
        let mut k: usize = 0;
        while let Some(code) = self.code_at(at) {
            if k == 4 {
                return None;
            }
            let digit = upper_digit(code.point)?;
            n = n * 16 + digit;
            k += 1;
            at = code.next;
        }
        if k == 4 { Some(n) } else { None }
    }

    // The letter of the table that goes with the word that a value is, if it is one of these.
    fn letter(self, words: &[(&[u8], u8)]) -> Option<u32>
        ensures { number_told result ≡ letter_of (spelled_out words.now) (codes_of self.entry) }
    {
        for (word, letter) in words {
            if self.is(word) {
                return Some(u32::from(*letter));
            }
        }
        None
    }

    // "yes" or "no", as a letter of the table.
    fn yes_no(self) -> Option<u32>
        ensures { number_told result ≡ letter_of yes_no (codes_of self.entry) }
    {
        self.letter(&[(b"yes", b'Y'), (b"no", b'N')])
    }

    // "yes", "firstNo" or "no".
    fn yes_first_no(self) -> Option<u32>
        ensures { number_told result ≡ letter_of yes_first_no (codes_of self.entry) }
    {
        self.letter(&[(b"yes", b'Y'), (b"firstNo", b'F'), (b"no", b'N')])
    }

    // A state, as its letter.
    fn state(self) -> Option<u32>
        ensures { number_told result ≡ letter_of states (codes_of self.entry) }
    {
        let words: [(&[u8], u8); 4] = [
            (b"initial", b'I'),
            (b"translated", b'T'),
            (b"reviewed", b'R'),
            (b"final", b'F'),
        ];
        self.letter(&words)
    }

    // The value, read as the slot `k` asks.
    fn of_slot(self, k: usize) -> Option<u32>
        ensures { number_told result ≡ value_read k (codes_of self.entry) }
    {
        match k {
            ID..=START_REF => self.number(),
            HEX => self.hexadecimal(),
            STATE => self.state(),
            CAN_REORDER => self.yes_first_no(),
            _ => self.yes_no(),
        }
    }
}

// What the slot `k` holds of the value that stands in the text from `start` to its quote.
pub fn slot_value(text: &[u8], start: usize, quote: u8, k: usize) -> u32
    requires { start ≤ length text.now }
    ensures { result ≡ or_bad (value_read k (value_codes quote 0 (drop start text.now))) }
{
    let value = Value { text, start, quote };
    value.of_slot(k).unwrap_or(BAD)
}
