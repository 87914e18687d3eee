// Rule 7: a half without partner.
// Throughout, `t` is the table, `source` and `target` the markers of the source and the target sequence, `keys` the keys
// of a sequence, and `bars` those of the contents with the heads between them.
#![tactic(auto)]

ghost use Rattle.std.specs.Prelude.{◌≡◌, true, false, [], reverse, ◌+◌, ◌<◌, ◌≤◌, length, take, drop, get_or};
ghost use Rattle.xliff.specs.Bytes.{any, gather};
ghost use Rattle.xliff.specs.Parse.{unit, most_bytes, most_records};
ghost use Rattle.xliff.specs.Sequences.{blamed, first_of, placed_contents, located};
ghost use Rattle.xliff.specs.Rules.{lone_P, fault_7};
ghost use Rattle.places.specs.Passes.{Passes};
ghost use Rattle.sequences.specs.Markers.{Sequences};
ghost use Rattle.answers.specs.Answers.{refusal_at, toward};
ghost use Rattle.contents.specs.Contents.{targeted, barred, bar_keys};
ghost use Rattle.partners.specs.Partners.{is_mark_alike, partner_s_Key, lone_s_Key, is_half_of_id, only_half, some_key, waits_key, waits_for_key, lone_among_keys, blamed_keys};

use keys::Sequence;
use limits::MOST_RECORDS;
use sequences::MarkerRoom;

// A mark of a start or an end alike to `k`: the same pair or annotation.
fn is_mark_alike(k: u32, y: u32) -> bool
    ensures { result ≡ is_mark_alike k y }
{
    keys::alike(k, y) & !keys::is_form_p(y)
}

// Of the marks of start and end alike to `k`, the first of `keys` is its other half.
fn partner_after(keys: &[u32], k: u32) -> bool
    ensures { result ≡ partner_s_Key k keys.now }
{
    match keys.iter().find(|y| is_mark_alike(k, **y)) {
        Some(y) => keys::is_other(k, *y),
        None => false,
    }
}

// The same, of the last of `keys`. Two functions, since `rev` makes another iterator.
fn partner_before(keys: &[u32], k: u32) -> bool
    ensures { result ≡ partner_s_Key k (reverse keys.now) }
{
    match keys.iter().rev().find(|y| is_mark_alike(k, **y)) {
        Some(y) => keys::is_other(k, *y),
        None => false,
    }
}

// The key at `i` is a half with the mark of a start or an end, and has no partner: a start looks at what is after it,
// an end at what is before it.
fn lone_s(keys: &[u32], i: usize) -> bool
    requires { i < length keys.now }
    ensures { result ≡ lone_s_Key (reverse (take i keys.now)) (get_or keys.now i 0) (drop (i + 1) keys.now) }
{
    let k = keys[i];
    if (keys::half_of(k) == 0) | keys::is_form_p(k) {
        return false;
    }
    if keys::half_of(k) == 1 {
        return !partner_after(&keys[i + 1..], k);
    }
    !partner_before(&keys[..i], k)
}

// Some key is a half of the id.
fn any_half(keys: &[u32], id: u32) -> bool
    ensures { result ≡ any (is_half_of_id id) keys.now }
{
    keys.iter()
        .any(|k| !(keys::half_of(*k) == 0) & (keys::id_of(*k) == id))
}

// The key at `i` is the only half of its id.
fn only_half(keys: &[u32], i: usize) -> bool
    requires { i < length keys.now }
    ensures { result ≡ only_half (reverse (take i keys.now)) (get_or keys.now i 0) (drop (i + 1) keys.now) }
{
    let id = keys::id_of(keys[i]);
    !any_half(&keys[..i], id) & !any_half(&keys[i + 1..], id)
}

// The next bar is a TG.
fn is_targeted(keys: &[u32]) -> bool
    ensures { result ≡ targeted keys.now }
{
    match keys.iter().find(|k| keys::class_of(**k) == 0) {
        Some(k) => *k == 1,
        None => false,
    }
}

// The halves with the mark of a start or an end that have no partner in the source sequence. Quadratic: each looks at
// the others.
fn lone_in_source(source: Sequence, start: Option<usize>) -> Option<usize>
    ensures { refusal_at 7 result ≡ toward 7 start (blamed_keys lone_s_Key [] source.entry.markers.now source.entry.keys.now) }
{
    let mut best = start;
    for i in 0..source.markers.len() {
        best = answers::lower_if(lone_s(source.keys, i), best, marks::wide(source.markers[i]));
    }
    best
}

// Of the keys of the source contents with bars between them, that at `i` is the other half of `x`, has its partner, and
// is in a part without target. One step if it is not the other half of `x`, else linear.
fn waits(x: u32, bars: &[u32], i: usize, stack: &mut [u32]) -> bool
    requires { (i < length bars.now) × (length bars.now ≤ most_records) × (length stack.old ≡ most_records) }
    ensures { (result ≡ waits_key x (reverse (take i bars.now)) (get_or bars.now i 0) (drop (i + 1) bars.now)) × (length stack.new ≡ most_records) }
{
    if !keys::is_other(x, bars[i]) {
        return false;
    }
    if nesting::is_lone(bars, i, stack) {
        return false;
    }
    !lone_s(bars, i) & !is_targeted(&bars[i + 1..])
}

// Some key waits for `x`. Linear, and once more linear for each key that is the other half of `x`: at most quadratic.
fn waits_for(x: u32, bars: &[u32], stack: &mut [u32]) -> bool
    requires { (length bars.now ≤ most_records) × (length stack.old ≡ most_records) }
    ensures { (result ≡ waits_for_key x [] bars.now) × (length stack.new ≡ most_records) }
{
    // no `any`: its closure would write the stack
    for i in 0..bars.len() {
        if waits(x, bars, i, stack) {
            return true;
        }
    }
    false
}

// The key at `i` of the target sequence is a half at fault: it has no partner, and is not the only half of its id with
// another that waits in the source. Linear, and as `waits_for` where it is the only half of its id: at most quadratic.
fn stays_lone(keys: &[u32], i: usize, bars: &[u32], stack: &mut [u32]) -> bool
    requires { (i < length keys.now) × (length bars.now ≤ most_records) × (length stack.old ≡ most_records) }
    ensures { (result ≡ lone_among_keys bars.now (reverse (take i keys.now)) (get_or keys.now i 0) (drop (i + 1) keys.now))
        × (length stack.new ≡ most_records) }
{
    if !lone_s(keys, i) {
        return false;
    }
    if !only_half(keys, i) {
        return true;
    }
    !waits_for(keys[i], bars, stack)
}

// The halves at fault in the target sequence. Quadratic: each looks at the others and at the source keys; it looks
// closer, once more linear, only at source keys of its id, and the ids of those that get so far differ, so that no
// source key is looked at closer twice.
// Beside `lone_in_source`: its test writes the stack, and as a closure would be no plainer.
fn lone_in_target(target: Sequence, bars: &[u32], start: Option<usize>) -> Option<usize>
    requires { length bars.now ≤ most_records }
    ensures { refusal_at 7 result
        ≡ toward 7 start (blamed_keys (lone_among_keys bars.now) [] target.entry.markers.now target.entry.keys.now) }
{
    let mut stack = [0u32; MOST_RECORDS];
    let mut best = start;
    for i in 0..target.markers.len() {
        best = answers::lower_if(
            stays_lone(target.keys, i, bars, &mut stack),
            best,
            marks::wide(target.markers[i]),
        );
    }
    best
}

// The halves of pc and mrk without partner in their content, with the keys of all contents. Quadratic, as `first_lone`
// is.
fn lone_in_contents(t: &[u8]) -> Option<usize>
    requires { Passes t.now × (length t.now ≤ most_bytes) }
    ensures { refusal_at 7 result ≡ first_of 7 (gather (blamed lone_P []) (placed_contents (located (unit t.now).parts))) }
{
    let mut bars = MarkerRoom::new();
    contents::hold_contents(t, true, &mut bars);
    nesting::first_lone(t, bars.sequence())
}

// Some half with the mark of a start or an end has no partner in its sequence.
fn any_lone(keys: &[u32]) -> bool
    ensures { result ≡ some_key lone_s_Key [] keys.now }
{
    (0..keys.len()).any(|i| lone_s(keys, i))
}

// The halves at fault in the target sequence, with the keys of the source contents. Quadratic, as `lone_in_target` is.
fn lone_by_source(t: &[u8], target: Sequence, start: Option<usize>) -> Option<usize>
    requires { Passes t.now × (length t.now ≤ most_bytes) }
    ensures { refusal_at 7 result ≡ toward 7 start
        (blamed_keys (lone_among_keys (bar_keys t.now (barred false t.now))) [] target.entry.markers.now target.entry.keys.now) }
{
    let mut bars = MarkerRoom::new();
    contents::hold_contents(t, false, &mut bars);
    lone_in_target(target, bars.sequence().keys, start)
}

// The halves at fault in the target sequence. The source contents are read only where some half is lone.
fn lone_in_targets(t: &[u8], target: Sequence, start: Option<usize>) -> Option<usize>
    requires { Passes t.now × (length t.now ≤ most_bytes) }
    ensures { refusal_at 7 result ≡ toward 7 start
        (blamed_keys (lone_among_keys (bar_keys t.now (barred false t.now))) [] target.entry.markers.now target.entry.keys.now) }
{
    if any_lone(target.keys) {
        return lone_by_source(t, target, start);
    }
    start
}

// Rule 7, by the markers of both sequences. Quadratic in the number of markers.
pub fn rule_7(t: &[u8], source: Sequence, target: Sequence) -> Option<usize>
    requires { Sequences t.now source target }
    ensures { refusal_at 7 result ≡ fault_7 (unit t.now).parts }
{
    lone_in_targets(t, target, lone_in_source(source, lone_in_contents(t)))
}
