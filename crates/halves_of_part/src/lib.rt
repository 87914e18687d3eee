// The two halves of a part.
#![tactic(auto)]

ghost use Rattle.std.specs.Prelude.{◌+◌, ◌-◌};
ghost use Rattle.xliff.specs.Split.{first_target, second_target, first_half, second_half};
ghost use Rattle.halves_of_part.specs.Parts.{RoomTarget, WroteTarget, RoomHalf, WroteHalf, RoomHalves, WroteHalves};

// The target of the first half. The halves have two functions each: cut, order and id all differ, so one function with
// a side would switch at each step, and promise both halves.
// An empty slice of the table is no target: one has at least its TG, so no Option is needed.
fn put_target_first(out: &mut [u8], t: &[u8], k: usize) -> usize
    requires { RoomTarget (first_target k) t.now out.old }
    ensures { WroteTarget (first_target k) t.now out.old result out.new }
{
    if t.len() == 0 {
        return 0;
    }
    let n = heads::put_target_head(out, heads::order_of(t));
    let m = cut::put_first(&mut out[n..], &t[marks::TARGET_WIDTH..], k);
    n + m
}

// The first half of a part: its head `h`, its source content `s`, its target `t`.
// Head, source and target stay three slices: a struct of them would be made for one call (`put_halves`).
fn put_first_half(out: &mut [u8], h: &[u8], s: &[u8], t: &[u8], k: usize, j: usize) -> usize
    requires { RoomHalf (first_half k j) h.now s.now t.now out.old }
    ensures { WroteHalf (first_half k j) h.now s.now t.now out.old result out.new }
{
    let n = writer::put(out, h);
    let m = cut::put_first(&mut out[n..], s, k);
    let e = n + m;
    let i = put_target_first(&mut out[e..], t, j);
    e + i
}

// The target of the second half: its order is the next.
fn put_target_second(out: &mut [u8], t: &[u8], k: usize) -> usize
    requires { RoomTarget (second_target k) t.now out.old }
    ensures { WroteTarget (second_target k) t.now out.old result out.new }
{
    if t.len() == 0 {
        return 0;
    }
    let n = heads::put_target_head(out, heads::order_of(t) + 1);
    let m = cut::put_second(&mut out[n..], &t[marks::TARGET_WIDTH..], k);
    n + m
}

// The second half of a part, with its new id.
fn put_second_half(
    out: &mut [u8],
    h: &[u8],
    s: &[u8],
    t: &[u8],
    k: usize,
    j: usize,
    id: u16,
) -> usize
    requires { RoomHalf (second_half k j id) h.now s.now t.now out.old }
    ensures { WroteHalf (second_half k j id) h.now s.now t.now out.old result out.new }
{
    let n = heads::put_with_id(out, h, id);
    let m = cut::put_second(&mut out[n..], s, k);
    let e = n + m;
    let i = put_target_second(&mut out[e..], t, j);
    e + i
}

// Both halves, the second directly behind the first.
pub fn put_halves(
    out: &mut [u8],
    h: &[u8],
    s: &[u8],
    t: &[u8],
    k: usize,
    j: usize,
    id: u16,
) -> usize
    requires { RoomHalves k j id h.now s.now t.now out.old }
    ensures { WroteHalves k j id h.now s.now t.now out.old result out.new }
{
    let n = put_first_half(out, h, s, t, k, j);
    let m = put_second_half(&mut out[n..], h, s, t, k, j, id);
    n + m
}
