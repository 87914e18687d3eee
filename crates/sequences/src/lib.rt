// The offsets of the markers of the two sequences, and their keys.
#![tactic(auto)]

ghost use Rattle.std.specs.Prelude.{◌≡◌, true, false, cond, [], ◌∷◌, ◌+◌, ◌-◌, ◌<◌, ◌≤◌, length, take};
ghost use Rattle.xliff.specs.Parse.{unit, most_bytes, most_parts, most_records};
ghost use Rattle.places.specs.Passes.{Passes};
ghost use Rattle.places.specs.Markers.{target_offsets};
ghost use Rattle.glance.specs.Glances.{kind_of};
ghost use Rattle.keys.specs.Keys.{keys_at};
ghost use Rattle.sequences.specs.Marks.{inside_source, offsets, Appended};
ghost use Rattle.sequences.specs.Markers.{Markers};
ghost use Rattle.sequences.specs.Targets.{head_offsets, head_number, of_order, Ordered};

use glance::Head;
use keys::Sequence;
use limits::{MOST_PARTS, MOST_RECORDS};

// `at` behind the first `m` of `out`, if asked for; how many there are then. The array and its count are no struct here:
// it would hold the caller's `&mut`, and be no plainer.
pub fn put_if(b: bool, out: &mut [u16], m: usize, at: u16) -> usize
    requires { (length (cond b (at ∷ []) []) + m ≤ length out.old) × (length out.old ≤ most_records) }
    ensures { Appended (cond b (at ∷ []) []) out.old m out.new result }
{
    if b {
        out[m] = at;
        return 1 + m;
    }
    m
}

// Whether what follows a record is of a source content.
fn inside_source(head: Head, inside: bool) -> bool
    ensures { result ≡ inside_source (kind_of head) inside }
{
    head.is_part() | (head.is_other() & inside)
}

// The markers of the source sequence.
// `Passes` is one clause of each function: a struct of the slice alone would be taken apart at each read.
pub fn sources(t: &[u8], out: &mut [u16]) -> usize
    requires { Passes t.now × (length t.now ≤ most_bytes) × (length out.old ≡ most_records) }
    ensures { (take result out.new ≡ offsets true 0 t.now) × (result ≤ most_records) × (length out.new ≡ most_records) }
{
    let mut at: usize = 0;
    let mut inside = false;
    let mut m: usize = 0;
    // The lent table is read record by record through the walker.
    while at < t.len() {
        let g = walker::glance_at(t, at);
        m = put_if(inside & g.marker, out, m, at as u16);
        inside = inside_source(g.head, inside);
        at += g.width;
    }
    m
}

// The offsets of the TG records, in table order.
fn target_heads(t: &[u8], heads: &mut [u16]) -> usize
    requires { Passes t.now × (length t.now ≤ most_bytes) × (length heads.old ≡ most_parts) }
    ensures { (take result heads.new ≡ head_offsets t.now) × (result ≤ most_parts) × (length heads.new ≡ most_parts) }
{
    let mut at: usize = 0;
    let mut m: usize = 0;
    // The lent table is read record by record through the walker.
    while at < t.len() {
        let g = walker::glance_at(t, at);
        m = put_if(g.head.is_target(), heads, m, at as u16);
        at += g.width;
    }
    m
}

// The markers of the target whose TG is number `i` of the heads, if its order is `q`, behind the first `n`: those up to
// the next head.
fn target_markers(t: &[u8], heads: &[u16], i: usize, q: u16, out: &mut [u16], n: usize) -> usize
    requires { Passes t.now × (length t.now ≤ most_bytes) × (heads.now ≡ head_offsets t.now) × (i < length heads.now)
        × (length (of_order q (head_number t.now i)) + n ≤ length out.old) × (length out.old ≤ most_records) }
    ensures { Appended (of_order q (head_number t.now i)) out.old n out.new result }
{
    let head = marks::wide(heads[i]);
    let first = walker::glance_at(t, head);
    if !first.head.sets(q) {
        return n;
    }
    let mut at = head + first.width;
    let mut m = n;
    // The lent table is read record by record through the walker.
    while at < t.len() {
        let g = walker::glance_at(t, at);
        if !g.head.is_other() {
            return m;
        }
        m = put_if(g.marker, out, m, at as u16);
        at += g.width;
    }
    m
}

// The orders of the TG records at the offsets `heads`, at the front of `out`.
fn head_orders(t: &[u8], heads: &[u16], out: &mut [u16])
    requires { Passes t.now × (heads.now ≡ head_offsets t.now) × (length heads.now ≤ length out.old) }
    ensures { (length out.new ≡ length out.old) × Ordered t.now (length heads.now) out.new }
{
    for i in 0..heads.len() {
        let g = walker::glance_at(t, marks::wide(heads[i]));
        if let Head::Target(order) = g.head {
            out[i] = order;
        }
    }
}

// The TG records of a table, in its order: their offsets, and their orders at the front.
#[derive(Clone, Copy)]
struct Heads<'a> {
    offsets: &'a [u16],
    orders: &'a [u16],
    ghost paired: { length offsets.now ≤ length orders.now },
}

// As `target_markers`, by the orders of the TG records: the table is read only where the order is `q`.
fn markers_of(t: &[u8], heads: Heads, i: usize, q: u16, out: &mut [u16], n: usize) -> usize
    requires { Passes t.now × (length t.now ≤ most_bytes) × (heads.offsets.now ≡ head_offsets t.now) × (i < length heads.offsets.now)
        × (length (of_order q (head_number t.now i)) + n ≤ length out.old) × (length out.old ≤ most_records)
        × Ordered t.now (length heads.offsets.now) heads.orders.now }
    ensures { Appended (of_order q (head_number t.now i)) out.old n out.new result }
{
    if q != heads.orders[i] {
        return n;
    }
    target_markers(t, heads.offsets, i, q, out, n)
}

// The markers of the targets of order `q`, behind the first `n`.
fn collect(t: &[u8], heads: Heads, q: u16, out: &mut [u16], n: usize) -> usize
    requires { Passes t.now × (length t.now ≤ most_bytes) × (heads.offsets.now ≡ head_offsets t.now)
        × (length (offsets false q t.now) + n ≤ length out.old) × (length out.old ≤ most_records)
        × Ordered t.now (length heads.offsets.now) heads.orders.now }
    ensures { Appended (offsets false q t.now) out.old n out.new result }
{
    let mut m = n;
    for i in 0..heads.offsets.len() {
        m = markers_of(t, heads, i, q, out, m);
    }
    m
}

// The markers of the target sequence, by rising order. Linear in the records, and one look at each TG for each order.
pub fn targets(t: &[u8], parts: u16, out: &mut [u16]) -> usize
    requires { Passes t.now × (length t.now ≤ most_bytes) × (length out.old ≡ most_records) × (parts ≤ most_parts) }
    ensures { (take result out.new ≡ target_offsets t.now 0 parts) × (result ≤ most_records) × (length out.new ≡ most_records) }
{
    let mut heads = [0u16; MOST_PARTS];
    let mut orders = [0u16; MOST_PARTS];
    let k = target_heads(t, &mut heads);
    head_orders(t, &heads[..k], &mut orders);
    let heads = Heads {
        offsets: &heads[..k],
        orders: &orders,
    };
    let mut n: usize = 0;
    for q in 0..parts {
        n = collect(t, heads, q + 1, out, n);
    }
    n
}

// Room for the markers of a sequence: their offsets and their keys, at the front of two arrays.
#[derive(Drop)]
pub struct MarkerRoom {
    pub markers: [u16; MOST_RECORDS],
    pub keys: [u32; MOST_RECORDS],
    pub count: usize,
    pub ghost fits: { count ≤ most_records },
}

impl MarkerRoom {
    // Room that holds no marker yet.
    pub fn new() -> MarkerRoom
        ensures { result.count ≡ 0 }
    {
        MarkerRoom {
            markers: [0; MOST_RECORDS],
            keys: [0; MOST_RECORDS],
            count: 0,
        }
    }

    // The markers that it holds.
    pub fn sequence(&self) -> Sequence<'_>
        ensures { (result.markers.now ≡ take self.now.count self.now.markers) × (result.keys.now ≡ take self.now.count self.now.keys) }
    {
        Sequence {
            markers: &self.markers[..self.count],
            keys: &self.keys[..self.count],
        }
    }

    // The keys of the markers whose offsets stand at the front.
    fn read_keys(&mut self, t: &[u8])
        ensures { (self.new.count ≡ self.old.count) × (self.new.markers ≡ self.old.markers)
            × (take self.new.count self.new.keys ≡ keys_at t.now (take self.new.count self.new.markers)) }
    {
        keys::keys_at(t, &self.markers[..self.count], &mut self.keys);
    }

    // The markers of the source sequence of a table.
    pub fn hold_source(&mut self, t: &[u8])
        requires { Passes t.now × (length t.now ≤ most_bytes) }
        ensures { (take self.new.count self.new.markers ≡ offsets true 0 t.now)
            × (take self.new.count self.new.keys ≡ keys_at t.now (take self.new.count self.new.markers)) }
    {
        self.count = sources(t, &mut self.markers);
        self.read_keys(t);
    }

    // The markers of the target sequence of a table with so many parts.
    pub fn hold_target(&mut self, t: &[u8], parts: u16)
        requires { Passes t.now × (length t.now ≤ most_bytes) × (parts ≤ most_parts) }
        ensures { (take self.new.count self.new.markers ≡ target_offsets t.now 0 parts)
            × (take self.new.count self.new.keys ≡ keys_at t.now (take self.new.count self.new.markers)) }
    {
        self.count = targets(t, parts, &mut self.markers);
        self.read_keys(t);
    }
}

// The markers of both sequences of a table with so many parts.
pub fn markers(t: &[u8], parts: usize, source: &mut MarkerRoom, target: &mut MarkerRoom)
    requires { Passes t.now × (length t.now ≤ most_bytes) × (parts ≡ length (unit t.now).parts) }
    ensures { Markers t.now (take source.new.count source.new.markers) (take source.new.count source.new.keys)
        (take target.new.count target.new.markers) (take target.new.count target.new.keys) }
{
    source.hold_source(t);
    target.hold_target(t, marks::narrow(parts));
}
