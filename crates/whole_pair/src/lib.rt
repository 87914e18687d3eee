// The complete pair or annotation of an id on one side of a unit.
#![tactic(auto)]

ghost use Rattle.std.specs.Prelude.{◌≡◌, not, ◌<◌, ◌≤◌, length, eqb};
ghost use Rattle.std.specs.List.{position};
ghost use Rattle.xliff.specs.Unit.{source_sequence, target_sequence};
ghost use Rattle.xliff.specs.Parse.{unit, most_bytes, most_parts};
ghost use Rattle.xliff.specs.Rules.{end_letter};
ghost use Rattle.xliff.specs.Rewrite.{side_sequence, find_whole};
ghost use Rattle.places.specs.Passes.{Passes};
ghost use Rattle.views.specs.Views.{items_of_markers};
ghost use Rattle.keys.specs.Keys.{keys_at};
ghost use Rattle.whole_pair.specs.Pairs.{pair_of, starts};

use keys::Sequence;
use sequences::MarkerRoom;

// A complete pair or annotation: `form_p`, its start has the mark of pc or mrk; `unfit`, its end's canReorder is not
// the PC letter.
#[derive(Clone, Copy)]
pub struct WholePair {
    pub form_p: bool,
    pub unfit: bool,
}

// The index of the first start half of the id.
fn find_start(keys: &[u32], id: u32) -> Option<usize>
    ensures { result ≡ position (starts id) keys.now }
{
    keys.iter()
        .position(|k| (keys::half_of(*k) == 1) & (keys::id_of(*k) == id))
}

// "the end's canReorder is not the PC letter": N for F and else equal to the start's.
// As `letters::end_letter`, which is private to rule 8: this crate needs nothing else of that one.
fn is_unfit(start: u8, end: u8) -> bool
    ensures { result ≡ not (eqb end (end_letter start)) }
{
    if start == b'F' {
        return !(end == b'N');
    }
    !(end == start)
}

// Its start and the other half after it, among markers in sequence.
fn pair_of(t: &[u8], s: Sequence, id: u16) -> Option<WholePair>
    requires { s.keys.now ≡ keys_at t.now s.markers.now }
    ensures { result ≡ pair_of (find_whole id (items_of_markers t.now s.entry.markers.now)) }
{
    let i = find_start(s.keys, u32::from(id))?;
    let j = halves::half_after(s.keys, i)?;
    let start = views::view_at(t, marks::wide(s.markers[i]));
    let end = views::view_at(t, marks::wide(s.markers[j]));
    Some(WholePair {
        form_p: start.pform,
        unfit: is_unfit(start.reorder, end.reorder),
    })
}

fn in_source(t: &[u8], id: u16) -> Option<WholePair>
    requires { Passes t.now × (length t.now ≤ most_bytes) }
    ensures { result ≡ pair_of (find_whole id (source_sequence (unit t.now).parts)) }
{
    let mut room = MarkerRoom::new();
    room.hold_source(t);
    pair_of(t, room.sequence(), id)
}

fn in_target(t: &[u8], parts: u16, id: u16) -> Option<WholePair>
    requires { Passes t.now × (length t.now ≤ most_bytes) × (parts ≡ length (unit t.now).parts) × (parts ≤ most_parts) }
    ensures { result ≡ pair_of (find_whole id (target_sequence (unit t.now).parts)) }
{
    let mut room = MarkerRoom::new();
    room.hold_target(t, parts);
    pair_of(t, room.sequence(), id)
}

// The pair or annotation of the id on a side. Linear in the markers but for the target sequence, which takes one look
// at each TG for each order.
pub fn find(t: &[u8], side: u8, id: u16) -> Option<WholePair>
    requires { Passes t.now × (length t.now ≤ most_bytes) }
    ensures { result ≡ pair_of (find_whole id (side_sequence side (unit t.now).parts)) }
{
    if side == b'S' {
        return in_source(t, id);
    }
    in_target(t, marks::narrow(orders::count_parts(t)), id)
}
