// Rule 7 for pc and mrk (PO PC MO MC): halves without partner in their content.
#![tactic(auto)]

ghost use Rattle.std.specs.Prelude.{◌≡◌, true, [], ◌∷◌, reverse, ◌+◌, ◌-◌, ◌<◌, ◌≤◌, length, get_or, take, drop};
ghost use Rattle.std.proofs.Math.Option.{some};
ghost use Rattle.xliff.specs.Bytes.{gather};
ghost use Rattle.xliff.specs.Parse.{unit, most_records};
ghost use Rattle.xliff.specs.Sequences.{located, placed_contents, blamed, first_of};
ghost use Rattle.xliff.specs.Rules.{lone_P};
ghost use Rattle.places.specs.Passes.{Passes};
ghost use Rattle.answers.specs.Answers.{refusal_at};
ghost use Rattle.contents.specs.Contents.{barred, bar_keys, run};
ghost use Rattle.contents.specs.Nesting.{meet_keys, all_met_keys, lone_p_Key};
ghost use Rattle.nesting.specs.Scan.{steps_away, index_away, away, is_apart, depth_after_half, is_halfP};

use keys::Sequence;
use limits::MOST_RECORDS;

// How many keys stand before the one at `i`, or after it, of `n`.
fn steps_away(back: bool, i: usize, n: usize) -> usize
    requires { i < n }
    ensures { result ≡ steps_away back i n }
{
    if back { i } else { n - (i + 1) }
}

// The key that stands behind the first `j` before the one at `i`, or after it.
fn key_away(keys: &[u32], back: bool, i: usize, j: usize) -> u32
    requires { (i < length keys.now) × (j < steps_away back i (length keys.now)) }
    ensures { result ≡ get_or keys.now (index_away back i j) 0 }
{
    if back {
        return keys[i - (j + 1)];
    }
    keys[i + 1 + j]
}

// A bar, or a half of pc or mrk that is not the other half of `x`, the nearest open one: no partner.
fn is_apart(x: u32, k: u32) -> bool
    ensures { result ≡ is_apart x k }
{
    let turned = !(keys::half_of(x) == keys::half_of(k)) & !keys::is_other(x, k);
    (keys::class_of(k) == 0) | (keys::is_form_p(k) & turned)
}

// How many halves are open after one more key; `x` is the nearest of the `depth` before.
fn depth_after(x: u32, k: u32, depth: usize) -> usize
    requires { (1 ≤ depth) × (depth < most_records) }
    ensures { result ≡ depth_after_half x k depth }
{
    if keys::is_form_p(k) {
        if keys::half_of(x) == keys::half_of(k) {
            return depth + 1;
        }
        return depth - 1;
    }
    depth
}

// Whether the half at `i` has its partner before it, or after it. The stack holds the open halves.
// Ends at the partner, at a half that rules one out, or at the end of the content.
// Stack and depth live in this function alone; the array is lent as room.
fn is_met(keys: &[u32], back: bool, i: usize, stack: &mut [u32]) -> bool
    requires { (i < length keys.now) × (length keys.now ≤ most_records) × (length stack.old ≡ most_records) }
    ensures { (result ≡ all_met_keys (meet_keys (some (get_or keys.now i 0 ∷ [])) (run (away back i 0 keys.now)))) × (length stack.new ≡ most_records) }
{
    stack[0] = keys[i];
    let n = steps_away(back, i, keys.len());
    let mut depth: usize = 1;
    for j in 0..n {
        let k = key_away(keys, back, i, j);
        let x = stack[depth - 1];
        if is_apart(x, k) {
            return false;
        }
        stack[depth] = k;
        depth = depth_after(x, k, depth);
        if depth == 0 {
            return true;
        }
    }
    false
}

// PO PC MO MC
fn is_half_p(k: u32) -> bool
    ensures { result ≡ is_halfP k }
{
    !(keys::half_of(k) == 0) & keys::is_form_p(k)
}

// Whether the marker at `i` is a half of pc or mrk without partner in its content.
pub fn is_lone(keys: &[u32], i: usize, stack: &mut [u32]) -> bool
    requires { (i < length keys.now) × (length keys.now ≤ most_records) × (length stack.old ≡ most_records) }
    ensures { (result ≡ lone_p_Key (run (reverse (take i keys.now))) (get_or keys.now i 0) (run (drop (i + 1) keys.now)))
        × (length stack.new ≡ most_records) }
{
    let k = keys[i];
    if !is_half_p(k) {
        return false;
    }
    !is_met(keys, !(keys::half_of(k) == 1), i, stack)
}

// The first half of pc or mrk without partner, over all contents.
// Work: for each half the steps to its partner, or to the end of its content: at most the square of the number of
// markers.
pub fn first_lone(t: &[u8], bars: Sequence) -> Option<usize>
    requires { Passes t.now × (bars.markers.now ≡ barred true t.now) × (bars.keys.now ≡ bar_keys t.now bars.markers.now)
        × (length bars.markers.now ≤ most_records) }
    ensures { refusal_at 7 result ≡ first_of 7 (gather (blamed lone_P []) (placed_contents (located (unit t.now).parts))) }
{
    let mut stack: [u32; MOST_RECORDS] = [0; MOST_RECORDS];
    let mut best = None;
    for i in 0..bars.markers.len() {
        let lone = is_lone(bars.keys, i, &mut stack);
        best = answers::lower_if(lone, best, marks::wide(bars.markers[i]));
    }
    best
}
