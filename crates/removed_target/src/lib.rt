// The table that a removal of a target results in.
#![tactic(auto)]

ghost use Rattle.std.specs.Prelude.{◌≤◌, length};
ghost use Rattle.part_at.specs.Stands.{Standing};
ghost use Rattle.removed_target.specs.Removed.{WroteToSource, WroteRemoved};

use part_at::PartPlace;

// The table up to the end of a part's source, the state of that part as given.
pub fn put_to_source(out: &mut [u8], t: &[u8], place: PartPlace, state: u8) -> usize
    requires { Standing t.now place × (place.target ≤ length out.old) }
    ensures { WroteToSource state t.now place out.old result out.new }
{
    let h = place.head;
    let s = place.source;
    let g = place.target;
    let n = writer::put(out, &t[..h]);
    let m = heads::put_with_state(&mut out[n..], &t[h..s], state);
    let k = n + m;
    let i = writer::put(&mut out[k..], &t[s..g]);
    k + i
}

// The table without the target of the part at `place`; a segment's state becomes I.
pub fn put_removed(out: &mut [u8], t: &[u8], place: PartPlace) -> usize
    requires { Standing t.now place × (length t.now ≤ length out.old) }
    ensures { WroteRemoved t.now place out.old result out.new }
{
    let e = place.end;
    let n = put_to_source(out, t, place, b'I');
    let m = writer::put(&mut out[n..], &t[e..]);
    n + m
}
