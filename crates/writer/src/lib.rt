// Pieces written into a lent output.
#![tactic(auto)]

ghost use Rattle.std.specs.Prelude.{◌≡◌, [], ◌∷◌, ◌+◌, ◌<◌, ◌≤◌, length};
ghost use Rattle.writer.specs.Pieces.{lead, overlay, number_bytes, bytes_of_mark};

// All of `bytes` at the head of `out`.
// No copy_from_slice: of slices of any length it becomes a call of memmove, and the library for C would need that from
// outside.
pub fn put(out: &mut [u8], bytes: &[u8]) -> usize
    requires { length bytes.now ≤ length out.old }
    ensures { (result ≡ length bytes.now) × (out.new ≡ lead bytes.now out.old) }
{
    for i in 0..bytes.len() {
        out[i] = bytes[i];
    }
    bytes.len()
}

// A byte at the index `at`; the index behind it.
pub fn put_byte(out: &mut [u8], at: usize, b: u8) -> usize
    requires { at < length out.old }
    ensures { (result ≡ at + 1) × (out.new ≡ overlay out.old at (b ∷ [])) }
{
    out[at] = b;
    at + 1
}

// A two-byte number at the index `at`.
pub fn put_number(out: &mut [u8], at: usize, n: u16) -> usize
    requires { at + 2 ≤ length out.old }
    ensures { (result ≡ at + 2) × (out.new ≡ overlay out.old at (number_bytes n)) }
{
    out[at..at + 2].copy_from_slice(&n.to_be_bytes());
    at + 2
}

// A mark at the index `at`.
pub fn put_mark(out: &mut [u8], at: usize, m: &[u8; 2]) -> usize
    requires { at + 2 ≤ length out.old }
    ensures { (result ≡ at + 2) × (out.new ≡ overlay out.old at (bytes_of_mark m.now)) }
{
    out[at..at + 2].copy_from_slice(m);
    at + 2
}
