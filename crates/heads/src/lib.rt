// What is asked of the records that open a unit and head its parts and targets (UN, SG, IG, TG), and how they are
// written. Their fields are read by `table`; no other crate knows where they stand.
#![tactic(auto)]

ghost use Rattle.std.specs.Prelude.{◌≤◌, ◌++◌, length};
ghost use Rattle.table.specs.Meaning.{segment_meaning};
ghost use Rattle.xliff.specs.Unit.{segment};
ghost use Rattle.xliff.specs.Encode.{target_head, record_bytes, head_bytes};
ghost use Rattle.writer.specs.Pieces.{Written};
ghost use Rattle.heads.specs.Heads.{SomeUnit, ResegmentIs, SomeHead, SegmentIs, SegmentOf, HeadRoom, WroteState, WroteId, SomeTarget, OrderIs};

use table::Segment;

// Where a part's id and a target's order stand.
const PART_ID: usize = 2;

const TARGET_ORDER: usize = 2;

// The canResegment of the unit whose table `t` is.
pub fn unit_resegment(t: &[u8]) -> u8
    requires { SomeUnit t.now }
    ensures { ResegmentIs t.now result }
{
    let f = table::opening_fields(t);
    f.can_resegment
}

// Whether the head of a part is a segment's; else it is an ignorable's.
pub fn is_segment(head: &[u8]) -> bool
    requires { SomeHead head.now }
    ensures { SegmentIs head.now result }
{
    marks::marked_by(head, b"SG")
}

// The fields of a head, where it is a segment's.
pub fn segment_of(head: &[u8]) -> Option<Segment>
    requires { SomeHead head.now }
    ensures { SegmentOf head.now result }
{
    if is_segment(head) {
        return Some(table::segment_fields(head));
    }
    None
}

// A segment's head with these fields.
pub fn put_segment(out: &mut [u8], f: Segment) -> usize
    requires { length (head_bytes (segment (segment_meaning f))) ≤ length out.old }
    ensures { Written (head_bytes (segment (segment_meaning f))) out.old result out.new }
{
    let m = writer::put_mark(out, 0, b"SG");
    let n = writer::put_number(out, m, f.id);
    let k = writer::put_byte(out, n, f.can_resegment);
    writer::put_byte(out, k, f.state)
}

// The head of a part with this state. An ignorable's head has no state: it stays.
pub fn put_with_state(out: &mut [u8], head: &[u8], state: u8) -> usize
    requires { HeadRoom head.now out.old }
    ensures { WroteState state head.now out.old result out.new }
{
    let Some(f) = segment_of(head) else {
        return writer::put(out, head);
    };
    put_segment(out, Segment { state, ..f })
}

// The head of a part with this id.
pub fn put_with_id(out: &mut [u8], head: &[u8], id: u16) -> usize
    requires { HeadRoom head.now out.old }
    ensures { WroteId id head.now out.old result out.new }
{
    let n = writer::put(out, head);
    let e = writer::put_number(out, PART_ID, id);
    n
}

// The order of the target `t`.
pub fn order_of(t: &[u8]) -> u16
    requires { SomeTarget t.now }
    ensures { OrderIs t.now result }
{
    marks::number_at(t, TARGET_ORDER)
}

// The head of a target with this order.
pub fn put_target_head(out: &mut [u8], order: u16) -> usize
    requires { length (record_bytes (target_head order)) ≤ length out.old }
    ensures { Written (record_bytes (target_head order)) out.old result out.new }
{
    let m = writer::put_mark(out, 0, b"TG");
    writer::put_number(out, m, order)
}

// A target with this order and content.
pub fn put_target(out: &mut [u8], order: u16, content: &[u8]) -> usize
    requires { length (record_bytes (target_head order) ++ content.now) ≤ length out.old }
    ensures { Written (record_bytes (target_head order) ++ content.now) out.old result out.new }
{
    let n = put_target_head(out, order);
    let k = writer::put(&mut out[n..], content);
    n + k
}
