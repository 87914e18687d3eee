// A walk over a content that is known to be good.
#![tactic(auto)]

ghost use Rattle.std.specs.Prelude.{◌≡◌, true, false, Some, ◌&&◌, ◌+◌, ◌-◌, ◌<◌, ◌≤◌, length, drop, eqb};
ghost use Rattle.walk.specs.Kept.{Fair};
ghost use Rattle.marks.specs.Marks.{meaning};
ghost use Rattle.walk.specs.Marks.{number, kind_of, kind_at, opposite, are_opposite, FoundOther};
ghost use Rattle.walk.specs.Place.{pass_text, One, PassedOne, PlaceOf};

use marks::Mark;
use text::points::Points;

// Where an item begins: its record's offset, the bytes before it in that record's text, the items that are missing.
#[derive(Clone, Copy)]
pub struct Place {
    pub at: usize,
    pub into: usize,
    pub left: usize,
}

// Which half of a pair or of an annotation a record is.
#[derive(Clone, Copy, PartialEq, Eq)]
pub enum HalfKind {
    PairStart,
    PairEnd,
    AnnotationStart,
    AnnotationEnd,
}

impl HalfKind {
    // The kind of the other half.
    fn opposite(self) -> HalfKind
        ensures { result ≡ opposite self }
    {
        match self {
            HalfKind::PairStart => HalfKind::PairEnd,
            HalfKind::PairEnd => HalfKind::PairStart,
            HalfKind::AnnotationStart => HalfKind::AnnotationEnd,
            HalfKind::AnnotationEnd => HalfKind::AnnotationStart,
        }
    }
}

// That of a mark; none where the mark is no half's.
pub fn kind_of(m: Mark) -> Option<HalfKind>
    ensures { result ≡ kind_of (meaning m) }
{
    match m {
        Mark::PO | Mark::SC => Some(HalfKind::PairStart),
        Mark::PC | Mark::EC => Some(HalfKind::PairEnd),
        Mark::MO | Mark::SM => Some(HalfKind::AnnotationStart),
        Mark::MC | Mark::EM => Some(HalfKind::AnnotationEnd),
        _ => None,
    }
}

// Whether the record at `at` is the other half of one of that kind and id.
fn other_at(c: &[u8], at: usize, kind: HalfKind, id: u16) -> bool
    requires { at + 4 ≤ length c.now }
    ensures { result ≡ are_opposite (Some kind) (kind_at (drop at c.now)) && eqb id (number (drop at c.now)) }
{
    (kind_of(walker::mark_at(c, at)) == Some(kind.opposite())) & (id == marks::number_at(c, at + 2))
}

// Whether a content has the other half of a half of that kind and id.
fn has_half(c: &[u8], kind: HalfKind, id: u16) -> bool
    requires { Fair c.now }
    ensures { FoundOther c.now (Some kind) id result }
{
    let mut at: usize = 0;
    // The content is read record by record through the walker.
    while at < c.len() {
        let next = at + walker::width_at(c, at);
        if other_at(c, at, kind, id) {
            return true;
        }
        at = next;
    }
    false
}

// Whether a content has the other half of a record of that kind and id; of a record that is no half, none is.
pub fn has_other(c: &[u8], kind: Option<HalfKind>, id: u16) -> bool
    requires { Fair c.now }
    ensures { FoundOther c.now kind id result }
{
    match kind {
        Some(half) => has_half(c, half, id),
        None => false,
    }
}

// The item stands in the record met, behind so many bytes of its text; or the items left.
// An enum of its own: neither way is a failure or nothing, each has a number, and `Stop` and `On` say which.
#[derive(Clone, Copy)]
enum Pass {
    Stop(usize),
    On(usize),
}

fn pass_text(p: Points, n: usize) -> Pass
    ensures { result ≡ pass_text p n }
{
    if p.bytes < n {
        Pass::Stop(p.bytes)
    } else {
        Pass::On(p.left)
    }
}

// The record `t` met with `k` items to pass over.
fn pass_one(t: &[u8], k: usize) -> Pass
    requires { One t.now }
    ensures { PassedOne t.now k result }
{
    if marks::marked_by(t, b"TX") {
        return pass_text(text::points::pass_points(&t[4..], k), t.len() - 4);
    }
    if k == 0 {
        return Pass::Stop(0);
    }
    Pass::On(k - 1)
}

// Where item number `k` of a content begins.
pub fn place_of(c: &[u8], k: usize) -> Place
    requires { Fair c.now }
    ensures { PlaceOf c.now k result }
{
    let mut at: usize = 0;
    let mut left = k;
    // The content is read record by record through the walker.
    while at < c.len() {
        let next = at + walker::width_at(c, at);
        match pass_one(&c[at..next], left) {
            Pass::Stop(into) => {
                return Place { at, into, left: 0 };
            }
            Pass::On(l) => {
                at = next;
                left = l;
            }
        }
    }
    Place { at, into: 0, left }
}
