// The table that a join results in.
#![tactic(auto)]

ghost use Rattle.std.specs.Prelude.{◌≡◌};
ghost use Rattle.xliff.specs.Join.{lower_above};
ghost use Rattle.join_result.specs.Result.{order_of_two, RoomJoinedParts, WroteJoinedParts, RoomJoined, WroteJoined};

use part_at::PartPlace;

// As `parts::moved_order` down, which is for orders below 65535; this one asks nothing.
fn lowered(n: u16, q: u16) -> u16
    ensures { result ≡ lower_above q n }
{
    if n <= q {
        return n;
    }
    n - 1
}

// The order of the first of two parts that has a target.
// 0 where neither has a target: then none is written, and the number is used for nothing.
fn order_of_two(x: PartPlace, y: PartPlace) -> u16
    ensures { result ≡ order_of_two x y }
{
    x.order.unwrap_or(y.order.unwrap_or(0))
}

// The parts of the table, those at `x` and `y` in one with this order, orders above `q` one down.
fn put_joined_parts(
    out: &mut [u8],
    t: &[u8],
    x: PartPlace,
    y: PartPlace,
    q: u16,
    order: u16,
) -> usize
    requires { RoomJoinedParts q order t.now x y out.old }
    ensures { WroteJoinedParts q order t.now x y out.old result out.new }
{
    let h = x.head;
    let f = y.end;
    let e = t.len() - marks::UNIT_END_WIDTH;
    let n = parts::put_parts(out, &t[marks::UNIT_WIDTH..h], q, false);
    let m = joined_part::put_joined_part(&mut out[n..], t, x, y, order);
    let k = n + m;
    let i = parts::put_parts(&mut out[k..], &t[f..e], q, false);
    k + i
}

// The table `t` with the parts at `x` and `y`, which stand side by side, joined: UN, the parts, UE.
pub fn put_join(out: &mut [u8], t: &[u8], x: PartPlace, y: PartPlace) -> usize
    requires { RoomJoined t.now x y out.old }
    ensures { WroteJoined t.now x y out.old result out.new }
{
    let q = join_orders::falls_above(t, x, y);
    let order = lowered(order_of_two(x, y), q);
    let e = t.len() - marks::UNIT_END_WIDTH;
    let i = writer::put(out, &t[..marks::UNIT_WIDTH]);
    let m = put_joined_parts(&mut out[i..], t, x, y, q, order);
    let l = i + m;
    let r = writer::put(&mut out[l..], &t[e..]);
    l + r
}
