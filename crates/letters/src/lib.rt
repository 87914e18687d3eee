// Rule 8: the letters of partners agree, and a fixed code is neither copied nor deleted.
// Throughout, `t` is the table, `source` and `target` the markers of the source and the target sequence.
#![tactic(auto)]

ghost use Rattle.std.specs.Prelude.{◌≡◌, true, false, [], ◌-◌, ◌<◌, length};
ghost use Rattle.answers.specs.Answers.{refusal_at, toward};
ghost use Rattle.views.specs.Views.{view_of};
ghost use Rattle.keys.specs.Keys.{keys_at};
ghost use Rattle.halves.specs.Nearest.{marker_at, earlier};
ghost use Rattle.letters.specs.Eight.{bad_8, ill_end, end_letter_of, ill_matched_views, is_leading, bad_alone};
ghost use Rattle.xliff.specs.Sequences.{blamed};
ghost use Rattle.xliff.specs.Rules.{fault_8};
ghost use Rattle.xliff.specs.Parse.{unit};
ghost use Rattle.sequences.specs.Markers.{Sequences};
ghost use Rattle.places.specs.Markers.{placed_at};

use keys::Sequence;
use views::View;

// canReorder of the end whose start has `c`: "N for F and else equal".
fn end_letter(c: u8) -> u8
    ensures { result ≡ end_letter_of c }
{
    if c == b'F' { b'N' } else { c }
}

// Whether an end does not match its start.
// Field by field: the rule compares not all fields of two views.
fn ill_matched(start: View, end: View) -> bool
    ensures { result ≡ ill_matched_views start end }
{
    let letter = end_letter(start.reorder);
    let reorder = ((start.reorder == b'F') | end.pform) & !(end.reorder == letter);
    !(start.of == end.of)
        | (!(start.copy == end.copy)
            | (!(start.delete == end.delete) | (!(start.overlap == end.overlap) | reorder)))
}

// canReorder F.
fn is_leading(x: View) -> bool
    ensures { result ≡ is_leading x }
{
    views::is_code(x) & (x.reorder == b'F')
}

// What is wrong with a code by itself; `led`: an F stands before it.
fn bad_alone(source: bool, led: bool, x: View) -> bool
    ensures { result ≡ bad_alone source led x }
{
    let code = views::is_code(x);
    let fixed = code & ((x.reorder == b'F') | (x.reorder == b'N'));
    (fixed & ((x.copy == b'Y') | (x.delete == b'Y')))
        | (source & (code & ((x.reorder == b'N') & !led)))
}

// Whether the marker at `i` is the end of a pair and does not match its start, the nearest other half before it.
// Linear in the markers before `i`.
fn ill_ended(t: &[u8], s: Sequence, i: usize, x: View) -> bool
    requires { (s.keys.now ≡ keys_at t.now s.markers.now) × (i < length s.markers.now)
        × (x ≡ view_of (marker_at t.now s.markers.now i)) }
    ensures { result ≡ ill_end (earlier (marker_at t.now s.entry.markers.now) i)
        (marker_at t.now s.entry.markers.now i) }
{
    if !((x.class == 2) & (x.half == 2)) {
        return false;
    }
    let Some(start) = halves::half_before(s.keys, i) else {
        return false;
    };
    ill_matched(
        keys::view_at(t, marks::wide(s.markers[start]), s.keys[start]),
        x,
    )
}

// Rule 8 over the markers of a sequence, below `start`.
// Quadratic in the markers: each end looks for its start among the keys before it.
fn eight_in(t: &[u8], source: bool, s: Sequence, start: Option<usize>) -> Option<usize>
    requires { s.keys.now ≡ keys_at t.now s.markers.now }
    ensures { refusal_at 8 result ≡ toward 8 start (blamed (bad_8 source) [] (placed_at t.now s.entry.markers.now)) }
{
    let mut best = start;
    let mut led = false;
    for i in 0..s.markers.len() {
        let at = marks::wide(s.markers[i]);
        let x = keys::view_at(t, at, s.keys[i]);
        let bad = ill_ended(t, s, i, x) | bad_alone(source, led, x);
        best = answers::lower_if(bad, best, at);
        led = is_leading(x) | led;
    }
    best
}

// Rule 8, by the markers of both sequences.
pub fn rule_8(t: &[u8], source: Sequence, target: Sequence) -> Option<usize>
    requires { Sequences t.now source target }
    ensures { refusal_at 8 result ≡ fault_8 (unit t.now).parts }
{
    eight_in(t, false, target, eight_in(t, true, source, None))
}
