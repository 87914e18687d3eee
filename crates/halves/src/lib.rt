// The nearest other half of a marker, before and after it in its sequence: by a scan of the keys, or along the links of
// its group. Before and after are two functions each: one counts down and one up, over links of their own.
#![tactic(auto)]

ghost use Rattle.std.specs.Prelude.{◌≡◌, ◌<◌, ◌≤◌, length};
ghost use Rattle.id_links.specs.Links.{Linked, LinkedAfter};
ghost use Rattle.halves.specs.Nearest.{ToldBefore, ToldAfter};
ghost use Rattle.xliff.specs.Parse.{most_records};

// Linear in the markers before `i`: a scan of their keys.
fn scan_before(keys: &[u32], i: usize) -> Option<usize>
    requires { i < length keys.now }
    ensures { ToldBefore keys.now i result }
{
    let key = keys[i];
    for j in (0..i).rev() {
        if keys::is_other(key, keys[j]) {
            return Some(j);
        }
    }
    None
}

// Linear in the markers after `i`: a scan of their keys.
fn scan_after(keys: &[u32], i: usize) -> Option<usize>
    requires { i < length keys.now }
    ensures { ToldAfter keys.now i result }
{
    for j in i + 1..keys.len() {
        if keys::is_other(keys[i], keys[j]) {
            return Some(j);
        }
    }
    None
}

// The index of the nearest other half before that at `i`. What is no half has none.
pub fn half_before(keys: &[u32], i: usize) -> Option<usize>
    requires { i < length keys.now }
    ensures { ToldBefore keys.now i result }
{
    if keys::half_of(keys[i]) == 0 {
        return None;
    }
    scan_before(keys, i)
}

// The index of the nearest other half after that at `i`.
pub fn half_after(keys: &[u32], i: usize) -> Option<usize>
    requires { i < length keys.now }
    ensures { ToldAfter keys.now i result }
{
    if keys::half_of(keys[i]) == 0 {
        return None;
    }
    scan_after(keys, i)
}

// Linear in the markers before `i` of its group: the links lead to them. A link is an index plus one, or 0: an array of
// numbers of two bytes.
// No struct of keys and links: there would be two, as links lead to what is before or to what is after.
fn follow_before(keys: &[u32], links: &[u16], i: usize) -> Option<usize>
    requires { Linked keys.now links.now × (length keys.now ≤ most_records) × (length links.now ≡ most_records) × (i < length keys.now) }
    ensures { ToldBefore keys.now i result }
{
    let key = keys[i];
    let mut j = marks::wide(links[i]);
    // Along the links, which count nothing.
    while 0 < j {
        if keys::is_other(key, keys[j - 1]) {
            return Some(j - 1);
        }
        j = marks::wide(links[j - 1]);
    }
    None
}

// Linear in the markers after `i` of its group: the links lead to them. A link is counted from the end.
fn follow_after(keys: &[u32], links: &[u16], i: usize) -> Option<usize>
    requires { LinkedAfter keys.now links.now × (length keys.now ≤ most_records) × (length links.now ≡ most_records) × (i < length keys.now) }
    ensures { ToldAfter keys.now i result }
{
    let key = keys[i];
    let mut j = keys.len() - marks::wide(links[i]);
    // Along the links, which count nothing.
    while j < keys.len() {
        if keys::is_other(key, keys[j]) {
            return Some(j);
        }
        j = keys.len() - marks::wide(links[j]);
    }
    None
}

// `half_before`, of keys that are linked to those before them.
pub fn linked_before(keys: &[u32], links: &[u16], i: usize) -> Option<usize>
    requires { Linked keys.now links.now × (length keys.now ≤ most_records) × (length links.now ≡ most_records) × (i < length keys.now) }
    ensures { ToldBefore keys.now i result }
{
    if keys::half_of(keys[i]) == 0 {
        return None;
    }
    follow_before(keys, links, i)
}

// `half_after`, of keys that are linked to those after them.
pub fn linked_after(keys: &[u32], links: &[u16], i: usize) -> Option<usize>
    requires { LinkedAfter keys.now links.now × (length keys.now ≤ most_records) × (length links.now ≡ most_records) × (i < length keys.now) }
    ensures { ToldAfter keys.now i result }
{
    if keys::half_of(keys[i]) == 0 {
        return None;
    }
    follow_after(keys, links, i)
}
