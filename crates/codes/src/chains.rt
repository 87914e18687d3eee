// Set target, 19: whether the fixed codes of a new content are not the chains of the old one, in any sequence. A chain
// is an F and the N that follow it; the N before any F are one chain, which stays first.
ghost use Rattle.std.specs.Prelude.{◌≡◌, ◌+◌};
ghost use Rattle.codes.specs.Codes.{BothContents};
ghost use Rattle.codes.specs.Fixed.{From, CodeOrEnd};
ghost use Rattle.codes.specs.Chains.{goes_on, NextChain, SameCodes, SameChain, Often, ChainCount, Uneven, Differ};

use super::fixed::{next_fixed, same_fixed};

// Whether the list goes on at `at`, where a fixed code or the end is: the whole list, or the N up to the next F.
// `From` is asked of another offset each time (0, at, at + 12): a struct with an offset would not hold it.
fn goes_on(c: &[u8], at: usize, whole: bool) -> bool
    requires { CodeOrEnd c.now at }
    ensures { result ≡ goes_on c.now at whole }
{
    if c.len() <= at {
        return false;
    }
    whole | (c[at + super::fixed::CAN_REORDER] == b'N')
}

// Where the next chain that an F begins stands, from the record at `from` on; the end where there is none.
// The end and no Option, as `next_fixed` has it.
fn next_chain(c: &[u8], from: usize) -> usize
    requires { From c.now from }
    ensures { NextChain c.now from result }
{
    let mut at = next_fixed(c, from);
    // From one fixed code to the next, some records at a time.
    while goes_on(c, at, false) {
        at = next_fixed(c, at + marks::CODE_WIDTH);
    }
    at
}

// Whether the fixed codes from `at` and from `to` on are the same: the whole lists, or the N of each up to the next F.
fn same_codes(c: &[u8], at: usize, d: &[u8], to: usize, whole: bool) -> bool
    requires { From c.now at × From d.now to }
    ensures { SameCodes c.now at d.now to whole result }
{
    let mut i = next_fixed(c, at);
    let mut j = next_fixed(d, to);
    // From one fixed code to the next in both contents.
    while goes_on(c, i, whole) {
        if !goes_on(d, j, whole) {
            return false;
        }
        if !same_fixed(c, i, d, j) {
            return false;
        }
        i = next_fixed(c, i + marks::CODE_WIDTH);
        j = next_fixed(d, j + marks::CODE_WIDTH);
    }
    !goes_on(d, j, whole)
}

// Whether the chains that the F at `at` and the F at `to` begin are the same.
fn same_chain(c: &[u8], at: usize, d: &[u8], to: usize) -> bool
    requires { From c.now (at + 12) × From d.now (to + 12) }
    ensures { SameChain c.now at d.now to result }
{
    if !same_fixed(c, at, d, to) {
        return false;
    }
    same_codes(c, at + marks::CODE_WIDTH, d, to + marks::CODE_WIDTH, false)
}

// How often the chain that the F at `at` begins stands in `d`.
fn often(c: &[u8], at: usize, d: &[u8]) -> usize
    requires { From c.now (at + 12) × From d.now 0 }
    ensures { Often c.now at d.now result }
{
    let mut count: usize = 0;
    let mut to = next_chain(d, 0);
    // From chain to chain, some records at a time.
    while to < d.len() {
        if same_chain(c, at, d, to) {
            count += 1;
        }
        to = next_chain(d, to + marks::CODE_WIDTH);
    }
    count
}

// How many chains of `c` begin with an F.
fn chain_count(c: &[u8]) -> usize
    requires { From c.now 0 }
    ensures { ChainCount c.now result }
{
    let mut count: usize = 0;
    let mut at = next_chain(c, 0);
    // From chain to chain, some records at a time.
    while at < c.len() {
        count += 1;
        at = next_chain(c, at + marks::CODE_WIDTH);
    }
    count
}

// Whether one of them stands more or less often in `d`.
fn uneven(c: &[u8], d: &[u8]) -> bool
    requires { From c.now 0 × From d.now 0 }
    ensures { Uneven c.now d.now result }
{
    let mut found = false;
    let mut at = next_chain(c, 0);
    // From chain to chain, some records at a time.
    while at < c.len() {
        found = found | !(often(c, at, c) == often(c, at, d));
        at = next_chain(c, at + marks::CODE_WIDTH);
    }
    found
}

// 19: whether the fixed codes of the new content are no rearrangement of the old content's chains. Where the lists are
// not the same, both contents are walked over once for each chain of the old one.
pub fn differs(old: &[u8], new: &[u8]) -> bool
    requires { BothContents old.now new.now }
    ensures { Differ old.now new.now result }
{
    if same_codes(old, 0, new, 0, true) {
        return false;
    }
    let first_stays = same_codes(old, 0, new, 0, false);
    let as_many = chain_count(old) == chain_count(new);
    !(first_stays & as_many) | uneven(old, new)
}
