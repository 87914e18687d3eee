// The fixed codes of a content, those with canReorder F or N: from one to the next, and whether two are the same.
ghost use Rattle.std.specs.Prelude.{◌≡◌, ◌+◌, ◌≤◌, length, drop};
ghost use Rattle.walk.specs.Place.{Begins};
ghost use Rattle.xliff.specs.SetTarget.{same_fixed};
ghost use Rattle.codes.specs.Fixed.{fixed_at, fixed_here, From, NextFixed};

use super::code_at;

// Where the letter canReorder stands in a code.
pub const CAN_REORDER: usize = 11;

// Whether the record at `at` is a code with canReorder F or N.
fn is_fixed(c: &[u8], at: usize) -> bool
    requires { Begins (drop at c.now) }
    ensures { result ≡ fixed_at (drop at c.now) }
{
    if code_at(c, at).is_none() {
        return false;
    }
    let reorder = c[at + CAN_REORDER];
    (reorder == b'F') | (reorder == b'N')
}

// Where the first fixed code stands, from the record at `from` on; the end where there is none.
// The end and no Option: each walk goes on while its offset is inside the content.
pub fn next_fixed(c: &[u8], from: usize) -> usize
    requires { From c.now from }
    ensures { NextFixed c.now from result }
{
    let mut at = from;
    // The content is read record by record through the walker.
    while at < c.len() {
        let next = at + walker::width_at(c, at);
        if is_fixed(c, at) {
            return at;
        }
        at = next;
    }
    at
}

// Whether the fixed codes at `at` and at `to` are the same: id, half and letter.
pub fn same_fixed(c: &[u8], at: usize, d: &[u8], to: usize) -> bool
    requires { (at + 12 ≤ length c.now) × (to + 12 ≤ length d.now) }
    ensures { result ≡ same_fixed (fixed_here (drop at c.now)) (fixed_here (drop to d.now)) }
{
    let a = walk::kind_of(walker::mark_at(c, at));
    let b = walk::kind_of(walker::mark_at(d, to));
    let same_id = marks::number_at(c, at + 2) == marks::number_at(d, to + 2);
    let same_letter = c[at + CAN_REORDER] == d[to + CAN_REORDER];
    same_id & ((a == b) & same_letter)
}
