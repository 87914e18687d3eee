// UTF-8, and the characters that XML 1.0 allows.
#![tactic(auto)]

pub mod points;

ghost use Rattle.std.specs.Prelude.{◌≡◌, true, false, ◌+◌, ◌-◌, ◌*◌, ◌<◌, ◌≤◌, length, drop};
ghost use Rattle.xliff.specs.Text.{is_accent};
ghost use Rattle.text.specs.Utf8.{xml_char, point_of, point_if, two_of, three_of, four_of, char_of, text_ok};
ghost use Rattle.text.specs.Blocks.{pair_fits, triple_fits, opens_block, pair_at, triple_at, all_fit, PassedText};

pub fn xml_char(c: u32) -> bool
    ensures { result ≡ xml_char c }
{
    ((c == 9) | (c == 10) | (c == 13))
        | (((0x20 <= c) & (c <= 0xD7FF))
            | ((0xE000 <= c) & (c <= 0xFFFD))
            | ((0x10000 <= c) & (c <= 0x10FFFF)))
}

// A character read: its code point, how many bytes it takes, and whether it is an accent, U+0300 to U+036F.
#[derive(Clone, Copy)]
pub struct Character {
    pub point: u32,
    pub width: usize,
    pub accent: bool,
}

fn is_accent(c: u32) -> bool
    ensures { result ≡ is_accent c }
{
    (0x300 <= c) & (c <= 0x36F)
}

fn point_of(c: u32, w: usize) -> Option<Character>
    ensures { result ≡ point_of c w }
{
    Some(Character {
        point: c,
        width: w,
        accent: is_accent(c),
    })
}

fn point_if(ok: bool, c: u32, w: usize) -> Option<Character>
    ensures { result ≡ point_if ok c w }
{
    if ok { point_of(c, w) } else { None }
}

// One function for each width, as the definitions have it: bounds, factors and barred forms all differ.
fn two_of(t: &[u8]) -> Option<Character>
    ensures { result ≡ two_of t.now }
{
    if t.len() < 2 {
        return None;
    }
    let b = t[1];
    point_if(
        (128 <= b) & (b <= 191),
        u32::from(t[0]) % 32 * 64 + u32::from(b) % 64,
        2,
    )
}

fn three_of(t: &[u8]) -> Option<Character>
    ensures { result ≡ three_of t.now }
{
    if t.len() < 3 {
        return None;
    }
    let b = t[1];
    let d = t[2];
    let c = u32::from(t[0]) % 16 * 4096 + u32::from(b) % 64 * 64 + u32::from(d) % 64;
    let ok = (((128 <= b) & (b <= 191)) & ((128 <= d) & (d <= 191)))
        & ((0x800 <= c) & !((0xD800 <= c) & (c <= 0xDFFF)));
    point_if(ok, c, 3)
}

fn four_of(t: &[u8]) -> Option<Character>
    ensures { result ≡ four_of t.now }
{
    if t.len() < 4 {
        return None;
    }
    let b = t[1];
    let d = t[2];
    let e = t[3];
    let c = u32::from(t[0]) % 8 * 262144
        + u32::from(b) % 64 * 4096
        + u32::from(d) % 64 * 64
        + u32::from(e) % 64;
    let ok = (((128 <= b) & (b <= 191)) & ((128 <= d) & (d <= 191)) & ((128 <= e) & (e <= 191)))
        & ((0x10000 <= c) & (c <= 0x10FFFF));
    point_if(ok, c, 4)
}

// The character at the head of `t`, if one stands there: the one decoder, which all readers of text ask.
pub fn char_of(t: &[u8]) -> Option<Character>
    ensures { result ≡ char_of t.now }
{
    if t.len() < 1 {
        return None;
    }
    let a = t[0];
    if a < 128 {
        return point_of(u32::from(a), 1);
    }
    if (194 <= a) & (a <= 223) {
        return two_of(t);
    }
    if (224 <= a) & (a <= 239) {
        return three_of(t);
    }
    if (240 <= a) & (a <= 244) {
        return four_of(t);
    }
    None
}

// Whether `c` is a character of one byte, no control character, or a byte of a character of two, and `d` is a second
// byte just where `c` is a first.
fn pair_fits(c: u8, d: u8) -> bool
    ensures { result ≡ pair_fits c d }
{
    let first = 194 <= c;
    let second = (128 <= d) & (d <= 191);
    ((32 <= c) & (c <= 223))
        & (!((c == 192) | (c == 193)) & ((first & second) | (!first & !second)))
}

// Whether sixteen bytes from `at` on fit, each with the next. No branch: compiled to a few wide instructions.
fn block_fits(t: &[u8], at: usize) -> bool
    requires { at + 17 ≤ length t.now }
    ensures { result ≡ all_fit pair_at 16 (drop at t.now) }
{
    let mut ok = true;
    for i in 0..16 {
        ok = ok & pair_fits(t[at + i], t[at + i + 1]);
    }
    ok
}

// As `pair_fits`, for characters of three bytes too: `e` is a byte behind a first just where `d` is a first, or `c` the
// first of three.
// Barred: behind E0 a form too long, behind ED a surrogate, behind EF a BF, where XML does not allow all.
fn triple_fits(c: u8, d: u8, e: u8) -> bool
    ensures { result ≡ triple_fits c d e }
{
    let led = (194 <= d) | (224 <= c);
    let behind = (128 <= e) & (e <= 191);
    let barred = ((c == 0xE0) & (d < 0xA0))
        | ((c == 0xED) & (0x9F < d))
        | ((c == 0xEF) & (d == 0xBF));
    ((32 <= c) & (c <= 239))
        & (!((c == 192) | (c == 193)) & (!barred & ((led & behind) | (!led & !behind))))
}

// Whether sixteen bytes from `at` on fit, each with the next two. No branch here either.
// Beside `block_fits`: the room asked for and the bytes that a test takes differ.
fn wide_block_fits(t: &[u8], at: usize) -> bool
    requires { at + 18 ≤ length t.now }
    ensures { result ≡ all_fit triple_at 16 (drop at t.now) }
{
    let mut ok = true;
    for i in 0..16 {
        ok = ok & triple_fits(t[at + i], t[at + i + 1], t[at + i + 2]);
    }
    ok
}

// Whether `b` is the first byte of a character, and `c` is a byte behind a first just where `b` is the first of more
// than one.
fn opens_block(b: u8, c: u8) -> bool
    ensures { result ≡ opens_block b c }
{
    let first = 194 <= b;
    let behind = (128 <= c) & (c <= 191);
    !((128 <= b) & (b <= 191)) & ((first & behind) | (!first & !behind))
}

// The characters from `from` on that begin before `until`, one by one.
fn pass_each(t: &[u8], from: usize, until: usize) -> Option<usize>
    requires { (from < until) × (until ≤ length t.now) }
    ensures { PassedText t.now from result }
{
    let mut at = from;
    // From character to character, of one to four bytes each.
    while at < until {
        let b = t[at];
        if (32 <= b) & (b <= 127) {
            at += 1;
        } else {
            let Some(found) = char_of(&t[at..]) else {
                return None;
            };
            if !xml_char(found.point) {
                return None;
            }
            at += found.width;
        }
    }
    Some(at)
}

// Some sixteen bytes of characters from `at` on: at once, where they are of one to three bytes each, else one by one.
fn pass_wide(t: &[u8], at: usize) -> Option<usize>
    requires { at + 18 ≤ length t.now }
    ensures { PassedText t.now at result }
{
    if opens_block(t[at], t[at + 1]) & wide_block_fits(t, at) {
        let d = t[at + 16];
        let e = t[at + 17];
        if (128 <= d) & (d <= 191) {
            if (128 <= e) & (e <= 191) {
                return Some(at + 18);
            }
            return Some(at + 17);
        }
        return Some(at + 16);
    }
    pass_each(t, at, at + 16)
}

// As `pass_wide`, up to the end of the text. A shorter test comes first, for characters of one or two bytes.
fn pass_some(t: &[u8], at: usize) -> Option<usize>
    requires { at < length t.now }
    ensures { PassedText t.now at result }
{
    if t.len() - at < 18 {
        return pass_each(t, at, t.len());
    }
    let b = t[at];
    if ((b < 128) | (191 < b)) & block_fits(t, at) {
        let d = t[at + 16];
        if (128 <= d) & (d <= 191) {
            return Some(at + 17);
        }
        return Some(at + 16);
    }
    pass_wide(t, at)
}

// Whether `t` is UTF-8 of characters that XML allows.
pub fn text_ok(t: &[u8]) -> bool
    ensures { result ≡ text_ok t.now }
{
    let mut at = 0;
    // From block to block, of sixteen bytes or some more.
    while at < t.len() {
        let Some(behind) = pass_some(t, at) else {
            return false;
        };
        at = behind;
    }
    true
}
