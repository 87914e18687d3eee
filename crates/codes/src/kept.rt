// Set target, 18: whether a new content has lost a non-removable code of the old one.
ghost use Rattle.std.specs.Prelude.{◌≡◌, ◌≤◌, length, drop};
ghost use Rattle.xliff.specs.Bytes.{equal};
ghost use Rattle.walk.specs.Kept.{Fair};
ghost use Rattle.walk.specs.Place.{Begins};
ghost use Rattle.codes.specs.Codes.{BothContents};
ghost use Rattle.codes.specs.Lost.{non_removable_at, fields_at, same_at, HasCode, CodeLost, AnyLost};

use super::code_at;

// Where the letter canDelete stands in a code.
const CAN_DELETE: usize = 9;

// Whether the record at `at` is a code with canDelete N.
fn is_non_removable(c: &[u8], at: usize) -> bool
    requires { Begins (drop at c.now) }
    ensures { result ≡ non_removable_at (drop at c.now) }
{
    if code_at(c, at).is_none() {
        return false;
    }
    c[at + CAN_DELETE] == b'N'
}

// Whether the fields of two codes are equal: the bytes behind their marks.
fn same_fields(t: &[u8], u: &[u8]) -> bool
    requires { (12 ≤ length t.now) × (12 ≤ length u.now) }
    ensures { result ≡ equal (fields_at t.now) (fields_at u.now) }
{
    t[2..marks::CODE_WIDTH] == u[2..marks::CODE_WIDTH]
}

// Whether the records at `at` and at `to` are the same code, marks compared as when flattened.
fn same_code(old: &[u8], at: usize, new: &[u8], to: usize) -> bool
    requires { Begins (drop at old.now) × Begins (drop to new.now) }
    ensures { result ≡ same_at (drop at old.now) (drop to new.now) }
{
    let (Some(a), Some(b)) = (code_at(old, at), code_at(new, to)) else {
        return false;
    };
    (a == b) & same_fields(&old[at..], &new[to..])
}

// Whether the new content has the code at `at`.
fn has_code(old: &[u8], at: usize, new: &[u8]) -> bool
    requires { Begins (drop at old.now) × Fair new.now }
    ensures { HasCode new.now (drop at old.now) result }
{
    let mut to: usize = 0;
    // The content is read record by record through the walker.
    while to < new.len() {
        let next = to + walker::width_at(new, to);
        if same_code(old, at, new, to) {
            return true;
        }
        to = next;
    }
    false
}

// Whether the record at `at` is a non-removable code that the new content has not.
fn is_lost_code(old: &[u8], at: usize, new: &[u8]) -> bool
    requires { Begins (drop at old.now) × Fair new.now }
    ensures { CodeLost new.now (drop at old.now) result }
{
    if !is_non_removable(old, at) {
        return false;
    }
    !has_code(old, at, new)
}

// 18: whether a non-removable code of the old content is not in the new one with every field equal.
// The records of the new content are walked over once for each non-removable code of the old one.
pub fn is_lost(old: &[u8], new: &[u8]) -> bool
    requires { BothContents old.now new.now }
    ensures { AnyLost old.now new.now result }
{
    let mut at: usize = 0;
    // The content is read record by record through the walker.
    while at < old.len() {
        let next = at + walker::width_at(old, at);
        if is_lost_code(old, at, new) {
            return true;
        }
        at = next;
    }
    false
}
