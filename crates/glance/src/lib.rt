// A glance at a record of a table that was read before: what a walk over the records asks of it, by its mark alone.
#![tactic(auto)]

ghost use Rattle.std.specs.Prelude.{◌≡◌, ◌≤◌, length, drop, eqb};
ghost use Rattle.xliff.specs.Parse.{mark_at};
ghost use Rattle.glance.specs.Glances.{kind_of, order_set, sets_order, part_glance, item_glance, text_glance, target_glance, rest_glance, Glanced};

// What a record heads: a part (SG and IG), a target, with the order that it sets (TG), or neither.
#[derive(Clone, Copy, PartialEq, Eq)]
pub enum Head {
    Part,
    Target(u16),
    Other,
}

impl Head {
    pub fn is_part(self) -> bool
        ensures { result ≡ eqb (kind_of self) 0 }
    {
        matches!(self, Head::Part)
    }

    pub fn is_target(self) -> bool
        ensures { result ≡ eqb (kind_of self) 1 }
    {
        matches!(self, Head::Target(_))
    }

    pub fn is_other(self) -> bool
        ensures { result ≡ eqb (kind_of self) 2 }
    {
        matches!(self, Head::Other)
    }

    // Whether it is of a TG that sets the order `q`.
    pub fn sets(self, q: u16) -> bool
        ensures { result ≡ sets_order q self }
    {
        match self {
            Head::Target(k) => q == k,
            _ => false,
        }
    }

    // The order that it sets, if it is of a TG.
    pub fn order(self) -> Option<u16>
        ensures { result ≡ order_set self }
    {
        match self {
            Head::Target(q) => Some(q),
            _ => None,
        }
    }
}

// What it heads, whether it is a marker, and its width.
#[derive(Clone, Copy)]
pub struct Glance {
    pub head: Head,
    pub marker: bool,
    pub width: usize,
}

fn part_glance(width: usize) -> Glance
    ensures { result ≡ part_glance width }
{
    Glance {
        head: Head::Part,
        marker: false,
        width: width,
    }
}

fn item_glance(marker: bool, width: usize) -> Glance
    ensures { result ≡ item_glance marker width }
{
    Glance {
        head: Head::Other,
        marker: marker,
        width: width,
    }
}

fn text_glance(t: &[u8]) -> Glance
    ensures { result ≡ text_glance t.now }
{
    if t.len() < marks::TEXT_WIDTH {
        return item_glance(false, 0);
    }
    let n = marks::number_at(t, 2);
    item_glance(false, marks::TEXT_WIDTH + marks::wide(n))
}

fn target_glance(t: &[u8]) -> Glance
    ensures { result ≡ target_glance t.now }
{
    if t.len() < marks::TARGET_WIDTH {
        return item_glance(false, 0);
    }
    Glance {
        head: Head::Target(marks::number_at(t, 2)),
        marker: false,
        width: marks::TARGET_WIDTH,
    }
}

// A glance at what is no head and no text. All that is left is taken for a code: there is no other good record. Marks are
// compared as fixed two-byte strings, as document 01 orders.
fn rest_glance(t: &[u8]) -> Glance
    requires { 2 ≤ length t.now }
    ensures { result ≡ rest_glance (mark_at t.now) }
{
    if marks::marked_by(t, b"MO") {
        return item_glance(true, marks::ANNOTATION_START_WIDTH);
    }
    if marks::marked_by(t, b"SM") {
        return item_glance(true, marks::ANNOTATION_START_WIDTH);
    }
    if marks::marked_by(t, b"MC") {
        return item_glance(true, marks::ANNOTATION_END_WIDTH);
    }
    if marks::marked_by(t, b"EM") {
        return item_glance(true, marks::ANNOTATION_END_WIDTH);
    }
    if marks::marked_by(t, b"CP") {
        return item_glance(false, marks::CHARACTER_WIDTH);
    }
    if marks::marked_by(t, b"UN") {
        return item_glance(false, marks::UNIT_WIDTH);
    }
    if marks::marked_by(t, b"UE") {
        return item_glance(false, marks::UNIT_END_WIDTH);
    }
    item_glance(true, marks::CODE_WIDTH)
}

// A glance at the record at the head of `t`. It says nothing where there is no good record.
fn glance_of(t: &[u8]) -> Glance
    ensures { Glanced t.now result }
{
    if t.len() < 2 {
        return item_glance(false, 0);
    }
    if marks::marked_by(t, b"TX") {
        return text_glance(t);
    }
    if marks::marked_by(t, b"TG") {
        return target_glance(t);
    }
    if marks::marked_by(t, b"SG") {
        return part_glance(marks::SEGMENT_WIDTH);
    }
    if marks::marked_by(t, b"IG") {
        return part_glance(marks::IGNORABLE_WIDTH);
    }
    rest_glance(t)
}

// A glance at the record at an offset of `s`; beyond the end there is none.
pub fn glance_at(s: &[u8], at: usize) -> Glance
    ensures { Glanced (drop at s.now) result }
{
    if s.len() < at {
        return item_glance(false, 0);
    }
    glance_of(&s[at..])
}
