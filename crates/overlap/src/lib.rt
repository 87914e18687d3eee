// Rule 9: a pair with canOverlap N encloses neither an isolated code nor one half alone of another pair.
// Throughout, `t` is the table, `source` and `target` the markers of the source and the target sequence.
#![tactic(auto)]

ghost use Rattle.std.specs.Prelude.{◌≡◌, ℕ, true, [], suc, ◌+◌, ◌-◌, ◌<◌, ◌≤◌, length, drop, get_or, ltb};
ghost use Rattle.answers.specs.Answers.{refusal_at, toward};
ghost use Rattle.views.specs.Views.{view_of};
ghost use Rattle.keys.specs.Keys.{keys_at};
ghost use Rattle.halves.specs.Nearest.{half_before, half_after, marker_at, earlier};
ghost use Rattle.id_links.specs.Nearest.{next};
ghost use Rattle.id_links.specs.Links.{Linked, LinkedAfter};
ghost use Rattle.overlap.specs.Nine.{Filled, Halves, stray_key, stray_at, is_pair_start, closed_start, AllOpen};
ghost use Rattle.xliff.specs.Sequences.{blamed, items};
ghost use Rattle.xliff.specs.Rules.{bad_9, fault_9};
ghost use Rattle.xliff.specs.Parse.{unit, most_records};
ghost use Rattle.sequences.specs.Markers.{Sequences};
ghost use Rattle.places.specs.Markers.{placed_at};

use keys::Sequence;
use limits::MOST_RECORDS;
use views::View;

// Markers in sequence with the nearest other half of each: before it in `starts`, after it in `ends`.
#[derive(Clone, Copy)]
struct Halved<'a> {
    sequence: Sequence<'a>,
    starts: &'a [u16],
    ends: &'a [u16],
    ghost few: { length sequence.keys.now ≤ most_records },
    ghost room: { (length starts.now ≡ most_records) × (length ends.now ≡ most_records) },
    ghost halves: { Halves sequence.keys.now starts.now ends.now },
}

// The nearest other halves of the marker at `i`, as arrays of two-byte numbers hold them: that before as its index plus
// one, or 0; that after as its index, or the number of markers. In fixed memory Options would take twice the room.
fn number_before(keys: &[u32], links: &[u16], i: usize) -> u16
    requires { Linked keys.now links.now × (length keys.now ≤ most_records) × (length links.now ≡ most_records)
        × (i < length keys.now) }
    ensures { result ≡ half_before keys.now i }
{
    match halves::linked_before(keys, links, i) {
        Some(j) => (j + 1) as u16,
        None => 0,
    }
}

fn number_after(keys: &[u32], links: &[u16], i: usize) -> u16
    requires { LinkedAfter keys.now links.now × (length keys.now ≤ most_records) × (length links.now ≡ most_records)
        × (i < length keys.now) }
    ensures { result ≡ half_after keys.now i }
{
    match halves::linked_after(keys, links, i) {
        Some(j) => j as u16,
        None => keys.len() as u16,
    }
}

// What `number` gives of each index below `n`, at that index.
fn fill_by<F: Fn(usize) -> u16>(n: usize, number: F, out: &mut [u16])
    requires within { n ≤ length out.old }
    requires callable { (i : ℕ) → i < n → F.pre number i }
    ensures room { length out.new ≡ length out.old }
    ensures filled { (i : ℕ) → i < n → F.post number i (get_or out.new i 0) }
{
    for i in 0..n {
        out[i] = number(i);
    }
}

// The nearest other halves of all markers.
// Linear in the markers where few of them are of one group, quadratic where all are.
fn fill(keys: &[u32], starts: &mut [u16], ends: &mut [u16])
    requires { (length keys.now ≤ most_records) × (length starts.old ≡ most_records)
        × (length ends.old ≡ most_records) }
    ensures { (length starts.new ≡ most_records) × (length ends.new ≡ most_records)
        × Halves keys.now starts.new ends.new }
{
    let mut links = [0u16; MOST_RECORDS];
    let mut heads = [0u16; 256];
    id_links::link_before(keys, &mut links, &mut heads);
    fill_by(keys.len(), |i| number_before(keys, &links, i), starts);
    id_links::link_after(keys, &mut links);
    fill_by(keys.len(), |i| number_after(keys, &links, i), ends);
}

// Whether a marker between `first` and `end`, with these nearest other halves, is isolated or has its other half
// elsewhere.
fn is_stray(key: u32, first: usize, end: usize, before: usize, after: usize) -> bool
    ensures { result ≡ stray_key key first end before after }
{
    let class = keys::class_of(key);
    ((class == 3) | (class == 4)) | ((class == 2) & !((first < before) | (after < end)))
}

impl Halved<'_> {
    fn is_stray_at(self, j: usize, first: usize, end: usize) -> bool
        requires { j < length self.sequence.keys.now }
        ensures { result ≡ stray_at self.entry.sequence.keys.now first end j }
    {
        let before = marks::wide(self.starts[j]);
        let after = marks::wide(self.ends[j]);
        is_stray(self.sequence.keys[j], first, end, before, after)
    }

    // Whether a marker from `first` on and before `end` is stray. Linear in the markers between them.
    fn has_stray(self, first: usize, end: usize) -> bool
        requires { end < length self.sequence.keys.now }
        ensures { result ≡ ltb (next (stray_at self.entry.sequence.keys.now first end) first (end - first)) end }
    {
        (first..end).any(|j| self.is_stray_at(j, first, end))
    }
}

// The start of a pair, by its key.
fn is_pair_start(key: u32) -> bool
    ensures { result ≡ is_pair_start key }
{
    (keys::class_of(key) == 2) & (keys::half_of(key) == 1)
}

// The start of a pair with canOverlap N.
fn is_closed_start(x: View) -> bool
    ensures { result ≡ closed_start x }
{
    (x.class == 2) & ((x.half == 1) & (x.overlap == b'N'))
}

// Whether the marker at `i` is the start of a pair with canOverlap N. The table is read only at the start of a pair.
fn is_closed(t: &[u8], s: Sequence, i: usize) -> bool
    requires { (s.keys.now ≡ keys_at t.now s.markers.now) × (i < length s.markers.now) }
    ensures { result ≡ closed_start (view_of (marker_at t.now s.entry.markers.now i)) }
{
    if !is_pair_start(s.keys[i]) {
        return false;
    }
    is_closed_start(keys::view_at(t, marks::wide(s.markers[i]), s.keys[i]))
}

// Rule 9 of the marker at `i`. Linear in the markers that it encloses.
fn encloses_stray(t: &[u8], h: Halved, i: usize) -> bool
    requires { (h.sequence.keys.now ≡ keys_at t.now h.sequence.markers.now) × (i < length h.sequence.markers.now) }
    ensures { result ≡ bad_9 (earlier (marker_at t.now h.entry.sequence.markers.now) i)
        (marker_at t.now h.entry.sequence.markers.now i)
        (items (placed_at t.now (drop (suc i) h.entry.sequence.markers.now))) }
{
    if !is_closed(t, h.sequence, i) {
        return false;
    }
    let end = marks::wide(h.ends[i]);
    if h.sequence.markers.len() <= end {
        return false;
    }
    h.has_stray(i + 1, end)
}

// Rule 9 over the markers of a sequence, below `start`.
// Quadratic in the markers: each start looks at those that it encloses.
// A loop as other rules have: one for all would take the test as a closure with a contract.
fn overlapping(t: &[u8], h: Halved, start: Option<usize>) -> Option<usize>
    requires { h.sequence.keys.now ≡ keys_at t.now h.sequence.markers.now }
    ensures { refusal_at 9 result ≡ toward 9 start (blamed bad_9 [] (placed_at t.now h.entry.sequence.markers.now)) }
{
    let mut best = start;
    for i in 0..h.sequence.markers.len() {
        let bad = encloses_stray(t, h, i);
        best = answers::lower_if(bad, best, marks::wide(h.sequence.markers[i]));
    }
    best
}

// Whether no marker is the start of a pair with canOverlap N. Linear.
fn all_open(t: &[u8], s: Sequence) -> bool
    requires { s.keys.now ≡ keys_at t.now s.markers.now }
    ensures { AllOpen t.now s.entry.markers.now result }
{
    (0..s.markers.len()).all(|i| !is_closed(t, s, i))
}

// Rule 9 over the markers of a sequence, below `start`. Where no pair is closed, other halves are not looked for.
// Quadratic in the markers: `overlapping`.
fn nine_in(t: &[u8], s: Sequence, start: Option<usize>) -> Option<usize>
    requires { (s.keys.now ≡ keys_at t.now s.markers.now) × (length s.markers.now ≤ most_records) }
    ensures { refusal_at 9 result ≡ toward 9 start (blamed bad_9 [] (placed_at t.now s.entry.markers.now)) }
{
    if all_open(t, s) {
        return start;
    }
    nine_by_halves(t, s, start)
}

// The same with the nearest other halves of all markers.
fn nine_by_halves(t: &[u8], s: Sequence, start: Option<usize>) -> Option<usize>
    requires { (s.keys.now ≡ keys_at t.now s.markers.now) × (length s.markers.now ≤ most_records) }
    ensures { refusal_at 9 result ≡ toward 9 start (blamed bad_9 [] (placed_at t.now s.entry.markers.now)) }
{
    let mut starts = [0u16; MOST_RECORDS];
    let mut ends = [0u16; MOST_RECORDS];
    fill(s.keys, &mut starts, &mut ends);
    let h = Halved {
        sequence: s,
        starts: &starts,
        ends: &ends,
    };
    overlapping(t, h, start)
}

// Rule 9, by the markers of both sequences.
pub fn rule_9(t: &[u8], source: Sequence, target: Sequence) -> Option<usize>
    requires { Sequences t.now source target }
    ensures { refusal_at 9 result ≡ fault_9 (unit t.now).parts }
{
    nine_in(t, target, nine_in(t, source, None))
}
