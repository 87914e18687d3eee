// Code points of a text passed over: counted in blocks by their first bytes, then one by one by the decoder.
ghost use Rattle.std.specs.Prelude.{◌≡◌, ◌+◌, ◌≤◌, length, drop};
ghost use Rattle.text.specs.Points.{lead, leads, further, sought, Reached, TextBytes, PassedOver};

use super::char_of;

// 1 for the first byte of a code point, 0 for the others.
// A number and no bool: a block adds them up.
fn lead(b: u8) -> u8
    ensures { (result ≡ lead b) × (result ≤ 1) }
{
    if (0x80 <= b) & (b <= 0xBF) { 0 } else { 1 }
}

// How many code points begin in the 64 bytes from `at` on. No branch: compiled to a few wide instructions.
fn leads_in(t: &[u8], at: usize) -> usize
    requires { at + 64 ≤ length t.now }
    ensures { result ≡ leads 64 (drop at t.now) }
{
    let mut n: u8 = 0;
    for i in 0..64 {
        n += lead(t[at + i]);
    }
    usize::from(n)
}

// Bytes passed over, and code points still to pass over.
#[derive(Clone, Copy)]
pub struct Points {
    pub bytes: usize,
    pub left: usize,
}

// Blocks of 64 bytes passed over, up to the one in which code point number `k` begins.
fn pass_blocks(t: &[u8], k: usize) -> Points
    ensures { Reached t.now k result }
{
    let mut at: usize = 0;
    let mut left = k;
    // From block to block of 64 bytes: what is left of the text is no block.
    while 64 <= t.len() - at {
        let n = leads_in(t, at);
        if left < n {
            return Points {
                bytes: at,
                left: left,
            };
        }
        at += 64;
        left -= n;
    }
    Points {
        bytes: at,
        left: left,
    }
}

// From an offset of a text on, character by character, up to the one behind `k` others. Where a block ended within a
// character, the rest of that character comes first: no character begins there.
fn pass_characters(t: &[u8], from: usize, k: usize) -> Points
    requires { (from ≤ length t.now) × TextBytes t.now }
    ensures { result ≡ further from (sought (drop from t.now) k) }
{
    let mut at = from;
    let mut left = k;
    // From character to character, of one to four bytes each.
    while at < t.len() {
        match char_of(&t[at..]) {
            Some(found) => {
                if left == 0 {
                    return Points { bytes: at, left: 0 };
                }
                at += found.width;
                left -= 1;
            }
            None => {
                at += 1;
            }
        }
    }
    Points {
        bytes: at,
        left: left,
    }
}

// The first `k` code points of a text passed over.
pub fn pass_points(t: &[u8], k: usize) -> Points
    requires { TextBytes t.now }
    ensures { PassedOver t.now k result }
{
    let p = pass_blocks(t, k);
    pass_characters(t, p.bytes, p.left)
}
