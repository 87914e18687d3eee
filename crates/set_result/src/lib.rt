// The table that a setting of a target results in, and its limits.
#![tactic(auto)]

ghost use Rattle.std.specs.Prelude.{◌≤◌, length};
ghost use Rattle.cut.specs.Halves.{Some};
ghost use Rattle.part_at.specs.Stands.{Checked};
ghost use Rattle.set_result.specs.SetUnit.{RoomSet, WroteSet};
ghost use Rattle.set_result.specs.Counts.{RecordsAre, OldRecordsAre, TooLargeIs};

use limits::{MOST_BYTES, MOST_RECORDS};
use part_at::PartPlace;

// The table with this state of the part at `place`, and a target of this order and content.
pub fn put_set(
    out: &mut [u8],
    t: &[u8],
    place: PartPlace,
    order: u16,
    state: u8,
    content: &[u8],
) -> usize
    requires { RoomSet t.now place content.now out.old }
    ensures { WroteSet t.now place order state content.now out.old result out.new }
{
    let e = place.end;
    let n = removed_target::put_to_source(out, t, place, state);
    let m = heads::put_target(&mut out[n..], order, content);
    let k = n + m;
    let i = writer::put(&mut out[k..], &t[e..]);
    k + i
}

// The number of records of a content.
// Beside that of `part_at`: a content is walked by its records' widths, a table by glances.
fn count_records(c: &[u8]) -> usize
    requires { Some c.now }
    ensures { (result ≤ length c.now) × RecordsAre c.now result }
{
    let mut at: usize = 0;
    let mut n: usize = 0;
    // The lent content is read record by record through the walker.
    while at < c.len() {
        at += walker::width_at(c, at);
        n += 1;
    }
    n
}

// The number of records of the part's target, TG among them.
fn old_records(t: &[u8], place: PartPlace) -> usize
    requires { Checked t.now place }
    ensures { OldRecordsAre t.now place result }
{
    if place.has_target() {
        return 1 + count_records(place.target_of(t));
    }
    0
}

// 15: whether the table with this content as the part's target is longer than the output or beyond a limit.
pub fn is_too_large(t: &[u8], place: PartPlace, content: &[u8], room: usize) -> bool
    requires { Checked t.now place × Some content.now }
    ensures { TooLargeIs t.now place content.now room result }
{
    if MOST_BYTES < content.len() {
        return true;
    }
    let old = old_records(t, place);
    let records = part_at::count_records(t) + 1 + count_records(content) - old;
    let bytes = place.target + marks::TARGET_WIDTH + content.len() + (t.len() - place.end);
    (room < bytes) | ((MOST_BYTES < bytes) | (MOST_RECORDS < records))
}
