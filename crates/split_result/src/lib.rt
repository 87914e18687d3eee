// The table that a split results in.
#![tactic(auto)]

ghost use Rattle.std.specs.Prelude.{◌≡◌};
ghost use Rattle.split_result.specs.Result.{rises_above, RoomSplitPart, WroteSplitPart, RoomSplitParts, WroteSplitParts, RoomSplit, WroteSplit};

use part_at::{Cuts, PartPlace};

// Orders above this one rise: that of the part's target. Without a target none does: the highest number is above all.
fn rises_above(place: PartPlace) -> u16
    ensures { result ≡ rises_above place }
{
    place.order.unwrap_or(65535)
}

// The halves of the part at `place`.
fn put_split_part(out: &mut [u8], t: &[u8], place: PartPlace, cuts: Cuts) -> usize
    requires { RoomSplitPart cuts.source cuts.target cuts.new_id t.now place out.old }
    ensures { WroteSplitPart cuts.source cuts.target cuts.new_id t.now place out.old result out.new }
{
    let h = place.head;
    let s = place.source;
    let g = place.target;
    let e = place.end;
    halves_of_part::put_halves(
        out,
        &t[h..s],
        &t[s..g],
        &t[g..e],
        cuts.source,
        cuts.target,
        cuts.new_id,
    )
}

// The parts of the table, the one at `place` split.
fn put_split_parts(out: &mut [u8], t: &[u8], place: PartPlace, cuts: Cuts) -> usize
    requires { RoomSplitParts cuts.source cuts.target cuts.new_id t.now place out.old }
    ensures { WroteSplitParts cuts.source cuts.target cuts.new_id t.now place out.old result out.new }
{
    let h = place.head;
    let f = place.end;
    let e = t.len() - marks::UNIT_END_WIDTH;
    let q = rises_above(place);
    let n = parts::put_parts(out, &t[marks::UNIT_WIDTH..h], q, true);
    let m = put_split_part(&mut out[n..], t, place, cuts);
    let l = n + m;
    let i = parts::put_parts(&mut out[l..], &t[f..e], q, true);
    l + i
}

// The table `t` with the part at `place` split: UN, the parts, UE.
pub fn put_split(out: &mut [u8], t: &[u8], place: PartPlace, cuts: Cuts) -> usize
    requires { RoomSplit cuts.source cuts.target cuts.new_id t.now place out.old }
    ensures { WroteSplit cuts.source cuts.target cuts.new_id t.now place out.old result out.new }
{
    let e = t.len() - marks::UNIT_END_WIDTH;
    let i = writer::put(out, &t[..marks::UNIT_WIDTH]);
    let m = put_split_parts(&mut out[i..], t, place, cuts);
    let l = i + m;
    let r = writer::put(&mut out[l..], &t[e..]);
    l + r
}
