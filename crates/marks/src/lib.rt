// The eighteen marks of a table's records, compared as fixed two-byte strings; how many bytes a record of a mark takes;
// and numbers of two bytes.
#![tactic(auto)]

ghost use Rattle.std.specs.Prelude.{◌≡◌, ◌+◌, ◌*◌, ◌<◌, ◌≤◌, length};
ghost use Rattle.xliff.specs.Bytes.{two_at};
ghost use Rattle.xliff.specs.Parse.{mark_at, size_of};
ghost use Rattle.marks.specs.Marks.{marked, only_rest, only_later, meaning, fixed_width};

// How many bytes a record takes, a text's without its characters.
pub const UNIT_WIDTH: usize = 3;

pub const UNIT_END_WIDTH: usize = 2;

pub const SEGMENT_WIDTH: usize = 6;

pub const IGNORABLE_WIDTH: usize = 4;

pub const TARGET_WIDTH: usize = 4;

pub const TEXT_WIDTH: usize = 4;

pub const CHARACTER_WIDTH: usize = 6;

pub const CODE_WIDTH: usize = 12;

pub const ANNOTATION_START_WIDTH: usize = 5;

pub const ANNOTATION_END_WIDTH: usize = 4;

// `Unknown` is a mark, and there is no Option: the specification has a mark for none too (`meaning`).
#[derive(Clone, Copy)]
pub enum Mark {
    UN,
    UE,
    SG,
    IG,
    TG,
    TX,
    CP,
    PH,
    PO,
    PC,
    SC,
    EC,
    IS,
    IE,
    MO,
    SM,
    MC,
    EM,
    Unknown,
}

// The number of two bytes, the high one first.
fn two_bytes(high: u8, low: u8) -> u16
    ensures { (result ≡ high * 256 + low) × (low < 256) }
{
    u16::from_be_bytes([high, low])
}

// Whether `t` begins with the mark `m`. The two strings are compared as numbers: many such tests in a row become one
// search.
pub fn marked_by(t: &[u8], m: &[u8; 2]) -> bool
    requires { 2 ≤ length t.now }
    ensures { result ≡ marked t.now m.now }
{
    two_bytes(t[0], t[1]) == two_bytes(m[0], m[1])
}

// The mark at the head of `t`, if it is one of those that come seldom.
fn rest_mark(t: &[u8]) -> Mark
    requires { 2 ≤ length t.now }
    ensures { meaning result ≡ only_rest (mark_at t.now) }
{
    if marked_by(t, b"SC") {
        return Mark::SC;
    }
    if marked_by(t, b"EC") {
        return Mark::EC;
    }
    if marked_by(t, b"SM") {
        return Mark::SM;
    }
    if marked_by(t, b"EM") {
        return Mark::EM;
    }
    if marked_by(t, b"IG") {
        return Mark::IG;
    }
    if marked_by(t, b"CP") {
        return Mark::CP;
    }
    if marked_by(t, b"IS") {
        return Mark::IS;
    }
    if marked_by(t, b"IE") {
        return Mark::IE;
    }
    if marked_by(t, b"UN") {
        return Mark::UN;
    }
    if marked_by(t, b"UE") {
        return Mark::UE;
    }
    Mark::Unknown
}

// The mark at the head of `t`, if it is none of those that come most often.
fn later_mark(t: &[u8]) -> Mark
    requires { 2 ≤ length t.now }
    ensures { meaning result ≡ only_later (mark_at t.now) }
{
    if marked_by(t, b"SG") {
        return Mark::SG;
    }
    if marked_by(t, b"TG") {
        return Mark::TG;
    }
    if marked_by(t, b"MO") {
        return Mark::MO;
    }
    if marked_by(t, b"MC") {
        return Mark::MC;
    }
    rest_mark(t)
}

// The mark at the head of `t`. The tests stand by how often a mark comes, and are no table of marks: each compares with a
// fixed two-byte string, as document 01 orders.
pub fn mark_of(t: &[u8]) -> Mark
    ensures { meaning result ≡ mark_at t.now }
{
    if t.len() < 2 {
        return Mark::Unknown;
    }
    if marked_by(t, b"TX") {
        return Mark::TX;
    }
    if marked_by(t, b"PO") {
        return Mark::PO;
    }
    if marked_by(t, b"PC") {
        return Mark::PC;
    }
    if marked_by(t, b"PH") {
        return Mark::PH;
    }
    later_mark(t)
}

// How many bytes a record of a mark takes, a text's without its characters.
pub fn fixed_width(m: Mark) -> usize
    ensures { result ≡ fixed_width m }
{
    match m {
        Mark::Unknown => 0,
        Mark::UN => UNIT_WIDTH,
        Mark::UE => UNIT_END_WIDTH,
        Mark::SG => SEGMENT_WIDTH,
        Mark::IG => IGNORABLE_WIDTH,
        Mark::TG => TARGET_WIDTH,
        Mark::TX => TEXT_WIDTH,
        Mark::CP => CHARACTER_WIDTH,
        Mark::MO | Mark::SM => ANNOTATION_START_WIDTH,
        Mark::MC | Mark::EM => ANNOTATION_END_WIDTH,
        _ => CODE_WIDTH,
    }
}

// A number of two bytes as one that counts or places bytes.
// A function, since its contract says the bound too, which proofs of callers may cite.
pub fn wide(x: u16) -> usize
    ensures { (result ≡ x) × (result < 65536) }
{
    usize::from(x)
}

// The same back. `u16::try_from` would give a `Result`, whose error cannot come.
pub fn narrow(x: usize) -> u16
    requires { x < 65536 }
    ensures { result ≡ x }
{
    x as u16
}

// A number of two bytes as a part of a larger one.
// A function for its bound, as `wide`.
pub fn wide_to_u32(x: u16) -> u32
    ensures { (result ≡ x) × (result < 65536) }
{
    u32::from(x)
}

// The two-byte number at `at`, high byte first.
pub fn number_at(s: &[u8], at: usize) -> u16
    requires { at + 2 ≤ length s.now }
    ensures { result ≡ two_at s.now at }
{
    two_bytes(s[at], s[at + 1])
}

// How many bytes the record of the mark `m` at the head of `t` takes.
fn width_by(m: Mark, t: &[u8]) -> usize
    requires { 4 ≤ length t.now }
    ensures { result ≡ size_of (meaning m) t.now }
{
    match m {
        Mark::TX => TEXT_WIDTH + wide(number_at(t, 2)),
        _ => fixed_width(m),
    }
}

// How many bytes the record at the head of `t` takes.
pub fn width_of(t: &[u8]) -> usize
    requires { 4 ≤ length t.now }
    ensures { result ≡ size_of (mark_at t.now) t.now }
{
    width_by(mark_of(t), t)
}
