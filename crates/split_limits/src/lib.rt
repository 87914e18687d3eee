// What split refuses of its cuts and of its result: 13 and 15.
#![tactic(auto)]

ghost use Rattle.std.specs.Prelude.{◌≡◌, ◌+◌, ◌-◌, ◌*◌, ◌<◌};
ghost use Rattle.xliff.specs.Parse.{unit};
ghost use Rattle.xliff.specs.Check.{too_large};
ghost use Rattle.xliff.specs.Split.{split_unit};
ghost use Rattle.cut.specs.Halves.{Some};
ghost use Rattle.part_at.specs.Stands.{Checked, CheckedPart};
ghost use Rattle.split_limits.specs.Cuts.{MoreIs, EnoughIs, BadCutIs};
ghost use Rattle.split_limits.specs.Added.{AddedIn, TargetAddedIs, AddedIs};

use limits::{MOST_BYTES, MOST_PARTS, MOST_RECORDS};
use part_at::{Cuts, PartPlace};

// Whether a content has more than `k` items.
fn has_more(c: &[u8], k: usize) -> bool
    requires { Some c.now }
    ensures { MoreIs c.now k result }
{
    walk::place_of(c, k).at < c.len()
}

// Whether a content has at least `k` items.
fn has_enough(c: &[u8], k: usize) -> bool
    requires { Some c.now }
    ensures { EnoughIs c.now k result }
{
    walk::place_of(c, k).left == 0
}

// 13: whether the source is not cut between two items, or the target, if there is one, beyond its end.
pub fn is_bad_cut(t: &[u8], place: PartPlace, cuts: Cuts) -> bool
    requires { Checked t.now place }
    ensures { BadCutIs t.now place cuts.source cuts.target result }
{
    let more = has_more(place.source_of(t), cuts.source);
    let enough = has_enough(place.target_of(t), cuts.target);
    (cuts.source == 0) | (!more | !enough)
}

// The records that a cut adds to a content: one inside a text.
// A count, 0 or 1, which the callers add: a conversion of a bool is no plainer.
fn added_in(c: &[u8], k: usize) -> usize
    requires { Some c.now }
    ensures { AddedIn c.now k result }
{
    let p = walk::place_of(c, k);
    if p.into == 0 {
        return 0;
    }
    1
}

// A target gets a second TG.
fn target_added(t: &[u8], place: PartPlace, cut: usize) -> usize
    requires { Checked t.now place }
    ensures { TargetAddedIs t.now place cut result }
{
    if place.has_target() {
        return 1 + added_in(place.target_of(t), cut);
    }
    0
}

// The records that a split adds to a part, besides the second head.
fn added(t: &[u8], place: PartPlace, cuts: Cuts) -> usize
    requires { Checked t.now place }
    ensures { AddedIs t.now place cuts.source cuts.target result }
{
    let source = added_in(place.source_of(t), cuts.source);
    let target = target_added(t, place, cuts.target);
    source + target
}

// 15: whether the result of a split of part `n` is longer than the output or beyond a limit.
pub fn is_too_large(t: &[u8], n: usize, place: PartPlace, cuts: Cuts, room: usize) -> bool
    requires { CheckedPart t.now n place }
    ensures { result ≡ too_large room (split_unit (unit t.now) n cuts.source cuts.target cuts.new_id) }
{
    let more = added(t, place, cuts);
    let records = part_at::count_records(t) + 1 + more;
    let parts = orders::count_parts(t) + 1;
    let bytes = t.len() + (place.source - place.head) + marks::TEXT_WIDTH * more;
    (room < bytes) | ((MOST_BYTES < bytes) | ((MOST_RECORDS < records) | (MOST_PARTS < parts)))
}
