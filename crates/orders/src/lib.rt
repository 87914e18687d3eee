// The number of parts, and rule 5.
#![tactic(auto)]

ghost use Rattle.std.specs.Prelude.{◌≡◌, true, false, ◌||◌, ◌+◌, ◌-◌, ◌<◌, ◌≤◌, length, get_or, eqb, ltb};
ghost use Rattle.answers.specs.Answers.{refusal_at};
ghost use Rattle.xliff.specs.Parse.{unit, most_parts};
ghost use Rattle.xliff.specs.Rules.{fault_5};
ghost use Rattle.places.specs.Passes.{Passes};

// The orders that a target may be given, from 0 to the most parts of a table.
const ORDERS: usize = limits::MOST_PARTS + 1;

// The number of parts.
pub fn count_parts(t: &[u8]) -> usize
    requires { Passes t.now }
    ensures { result ≡ length (unit t.now).parts }
{
    let mut at = 0;
    let mut n = 0;
    // The lent table is read record by record through the walker.
    while at < t.len() {
        let g = walker::glance_at(t, at);
        n += usize::from(g.head.is_part());
        at += g.width;
    }
    n
}

// Whether a target of a table with `n` parts may not have the order `k`: it is 0, above `n`, or used before.
fn bad_order(n: usize, used: &[bool; ORDERS], k: usize) -> bool
    requires { n ≤ most_parts }
    ensures { result ≡ (eqb k 0 || (ltb n k || get_or used.now k false)) }
{
    if n < k {
        return true;
    }
    (k == 0) | used[k]
}

// Rule 5 of a table with `n` parts.
pub fn rule_5(t: &[u8], n: usize) -> Option<usize>
    requires { Passes t.now × (n ≡ length (unit t.now).parts) }
    ensures { refusal_at 5 result ≡ fault_5 (unit t.now).parts }
{
    let mut used = [false; ORDERS];
    let mut at = 0;
    // The lent table is read record by record through the walker.
    while at < t.len() {
        let g = walker::glance_at(t, at);
        let w = g.width;
        match g.head.order() {
            Some(q) => {
                let k = usize::from(q);
                if bad_order(n, &used, k) {
                    return Some(at);
                }
                used[k] = true;
                at += w;
            }
            None => {
                at += w;
            }
        }
    }
    None
}
