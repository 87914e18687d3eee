// Two parts joined.
#![tactic(auto)]

mod states;

ghost use Rattle.std.specs.Prelude.{◌≡◌};
ghost use Rattle.xliff.specs.Join.{dash};
ghost use Rattle.joined_part.specs.Heads.{JoinedSegment, JoinedWithIgnorable, RoomHeads, WroteHeads};
ghost use Rattle.joined_part.specs.Joined.{RoomTargets, WroteTargets, RoomJoinedPart, WroteJoinedPart};

use part_at::PartPlace;
use table::Segment;

fn dash_if(all: bool) -> u8
    ensures { result ≡ dash all }
{
    if all { b'-' } else { b'Y' }
}

// Two segments in one.
fn joined_segment(x: Segment, y: Segment) -> Segment
    ensures { JoinedSegment x y result }
{
    let dash = dash_if((x.can_resegment == b'-') & (y.can_resegment == b'-'));
    Segment {
        id: x.id,
        can_resegment: dash,
        state: states::join_states(x.state, y.state),
    }
}

// A segment and an ignorable in one.
fn joined_with_ignorable(s: Segment) -> Segment
    ensures { JoinedWithIgnorable s result }
{
    Segment {
        id: s.id,
        can_resegment: dash_if(s.can_resegment == b'-'),
        state: s.state,
    }
}

// The head of both.
fn put_joined_head(out: &mut [u8], h: &[u8], i: &[u8]) -> usize
    requires { RoomHeads h.now i.now out.old }
    ensures { WroteHeads h.now i.now out.old result out.new }
{
    match (heads::segment_of(h), heads::segment_of(i)) {
        (Some(x), Some(y)) => heads::put_segment(out, joined_segment(x, y)),
        (Some(x), None) => heads::put_segment(out, joined_with_ignorable(x)),
        (None, Some(y)) => heads::put_segment(out, joined_with_ignorable(y)),
        (None, None) => writer::put(out, h),
    }
}

// The target of both, with this order; none if neither has one.
// An empty slice of the table is no target: one has at least its TG, so no Option is needed.
fn put_joined_target(out: &mut [u8], g: &[u8], k: &[u8], order: u16) -> usize
    requires { RoomTargets order g.now k.now out.old }
    ensures { WroteTargets order g.now k.now out.old result out.new }
{
    if g.len() == 0 {
        if k.len() == 0 {
            return 0;
        }
        return heads::put_target(out, order, &k[marks::TARGET_WIDTH..]);
    }
    if k.len() == 0 {
        return heads::put_target(out, order, &g[marks::TARGET_WIDTH..]);
    }
    let n = heads::put_target_head(out, order);
    let m = joined_content::put_joined(
        &mut out[n..],
        &g[marks::TARGET_WIDTH..],
        &k[marks::TARGET_WIDTH..],
    );
    n + m
}

// The part at `x` joined with that at `y`; its target has this order.
pub fn put_joined_part(out: &mut [u8], t: &[u8], x: PartPlace, y: PartPlace, order: u16) -> usize
    requires { RoomJoinedPart order t.now x y out.old }
    ensures { WroteJoinedPart order t.now x y out.old result out.new }
{
    let n = put_joined_head(out, &t[x.head..x.source], &t[y.head..y.source]);
    let m = joined_content::put_joined(
        &mut out[n..],
        &t[x.source..x.target],
        &t[y.source..y.target],
    );
    let w = n + m;
    let z = put_joined_target(
        &mut out[w..],
        &t[x.target..x.end],
        &t[y.target..y.end],
        order,
    );
    w + z
}
