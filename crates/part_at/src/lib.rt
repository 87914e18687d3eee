// Where the parts of a table stand, and how many records it has.
#![tactic(auto)]

ghost use Rattle.std.specs.Prelude.{◌≡◌, true, false, ◌+◌, ◌-◌, ◌<◌, drop, length, is_some};
ghost use Rattle.xliff.specs.Parse.{read, is_part, unit};
ghost use Rattle.xliff.specs.Focus.{focus};
ghost use Rattle.places.specs.Passes.{Passes};
ghost use Rattle.orders.specs.Heads.{order_of, order_in};
ghost use Rattle.part_at.specs.Content.{is_in_content, is_content_read, ContentAt, ContentEnds};
ghost use Rattle.part_at.specs.Stands.{TargetAt, TargetSpans, PartFrom, PartSpans, PartFound, Standing};
ghost use Rattle.part_at.specs.Lent.{SourceHeld, TargetHeld};
ghost use Rattle.xliff.specs.Encode.{unit_records};

use table::{Read, Record};

fn in_content(x: Record) -> bool
    ensures { result ≡ is_in_content x }
{
    matches!(x, Record::Text | Record::Inline(_))
}

fn is_content(r: Read) -> bool
    ensures { result ≡ is_content_read r }
{
    match r {
        Read::Good(x, _) => in_content(x),
        _ => false,
    }
}

// The end of the content that starts at an offset.
fn content_end(t: &[u8], start: usize) -> usize
    requires { ContentAt t.now start }
    ensures { ContentEnds t.now start result }
{
    let mut at = start;
    // The lent table is read record by record through the walker.
    while at < t.len() {
        let r = walker::known_at(t, at);
        if !is_content(r) {
            return at;
        }
        at += syntax::width_of(r);
    }
    at
}

fn order_in(x: Record) -> Option<u16>
    ensures { result ≡ order_in x }
{
    match x {
        Record::Target(q) => Some(q),
        _ => None,
    }
}

// The order that a TG sets.
fn order_of(r: Read) -> Option<u16>
    ensures { result ≡ order_of r }
{
    match r {
        Read::Good(x, _) => order_in(x),
        _ => None,
    }
}

// The offsets of a part: its SG or IG, its source content, its TG and its end. Without a target the TG's is the end.
// The order of its target, if it has one, and whether it is a segment.
// `target` is no Option: without a target it still says where the source content ends.
#[derive(Clone, Copy)]
pub struct PartPlace {
    pub head: usize,
    pub source: usize,
    pub target: usize,
    pub end: usize,
    pub order: Option<u16>,
    pub segment: bool,
}

// The table is no field, though it goes with a place: a join has two places of one table.
impl PartPlace {
    pub fn has_target(self) -> bool
        ensures { result ≡ is_some self.order }
    {
        self.order.is_some()
    }

    // The content of its source.
    pub fn source_of(self, t: &[u8]) -> &[u8]
        requires { Standing t.now self }
        ensures { SourceHeld t.now self result.now }
    {
        &t[self.source..self.target]
    }

    // The content of its target, empty without one.
    pub fn target_of(self, t: &[u8]) -> &[u8]
        requires { Standing t.now self }
        ensures { TargetHeld t.now self result.now }
    {
        let start = if self.has_target() {
            self.target + marks::TARGET_WIDTH
        } else {
            self.end
        };
        &t[start..self.end]
    }
}

// Where a part is split, at an item of its source and one of its target, and the id of the second half.
#[derive(Clone, Copy)]
pub struct Cuts {
    pub source: usize,
    pub target: usize,
    pub new_id: u16,
}

// The part with these offsets, its target or the next part at `target`.
fn target_place(t: &[u8], head: usize, source: usize, target: usize, segment: bool) -> PartPlace
    requires { TargetAt t.now target }
    ensures { (result.head ≡ head) × (result.source ≡ source) × (result.target ≡ target) × (result.segment ≡ segment) ×
        TargetSpans t.now target result }
{
    let r = walker::known_at(t, target);
    let order = order_of(r);
    let end = match order {
        Some(_) => content_end(t, target + syntax::width_of(r)),
        None => target,
    };
    PartPlace {
        head,
        source,
        target,
        end,
        order,
        segment,
    }
}

// The part whose head stands at an offset.
pub fn part_from(t: &[u8], at: usize) -> PartPlace
    requires { PartFrom t.now at }
    ensures { PartSpans t.now at result }
{
    let source = walker::after(t, at);
    let segment = heads::is_segment(&t[at..source]);
    let target = content_end(t, source);
    target_place(t, at, source, target, segment)
}

// Whether a part begins at an offset.
pub fn starts_part(t: &[u8], at: usize) -> bool
    ensures { result ≡ is_part (read (drop at t.now)) }
{
    syntax::is_part(walker::known_at(t, at))
}

// The part `n`, counted from 1.
pub fn part_at(t: &[u8], n: usize) -> Option<PartPlace>
    requires { Passes t.now }
    ensures { PartFound t.now (focus (unit t.now).parts n) result }
{
    if n == 0 {
        return None;
    }
    let mut at = marks::UNIT_WIDTH;
    for number in 1..n {
        if !starts_part(t, at) {
            return None;
        }
        at = part_from(t, at).end;
    }
    if !starts_part(t, at) {
        return None;
    }
    Some(part_from(t, at))
}

// The number of records of a table.
pub fn count_records(t: &[u8]) -> usize
    requires { Passes t.now }
    ensures { result ≡ length (unit_records (unit t.now)) }
{
    let mut at = 0;
    let mut n = 0;
    // The lent table is read record by record through the walker.
    while at < t.len() {
        let g = walker::glance_at(t, at);
        at += g.width;
        n += 1;
    }
    n
}
