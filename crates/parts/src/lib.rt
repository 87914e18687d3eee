// Whole parts copied, with the orders of their targets changed.
#![tactic(auto)]

ghost use Rattle.std.specs.Prelude.{◌≡◌, ◌<◌, ◌≤◌, length};
ghost use Rattle.parts.specs.Parts.{SomeParts, WroteParts, moved, One, WroteOne};

// The order `n`, one up or down if it is above `q`.
fn moved_order(n: u16, q: u16, up: bool) -> u16
    requires { n < 65535 }
    ensures { result ≡ moved up q n }
{
    if n <= q {
        return n;
    }
    if up {
        return n + 1;
    }
    n - 1
}

// The record `t` of a part, a target's order moved.
// Order and direction are two parameters, as `moved` takes them: a struct would be made for three calls.
fn put_record(out: &mut [u8], t: &[u8], q: u16, up: bool)
    requires { One t.now × (length t.now ≤ length out.old) }
    ensures { WroteOne (moved up q) t.now out.old out.new }
{
    if marks::marked_by(t, b"TG") {
        let n = heads::put_target_head(out, moved_order(heads::order_of(t), q, up));
    } else {
        let n = writer::put(out, t);
    }
}

// The parts that stand in `t`, orders above `q` one up or one down, at the head of `out`.
pub fn put_parts(out: &mut [u8], t: &[u8], q: u16, up: bool) -> usize
    requires { SomeParts t.now × (length t.now ≤ length out.old) }
    ensures { WroteParts (moved up q) t.now out.old result out.new }
{
    let mut at: usize = 0;
    // The lent table is read record by record through the walker.
    while at < t.len() {
        let next = at + walker::width_at(t, at);
        put_record(&mut out[at..], &t[at..next], q, up);
        at = next;
    }
    at
}
