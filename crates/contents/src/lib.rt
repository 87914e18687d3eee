// The contents of a table, each by itself: the offsets of heads and markers in table order, and their keys.
#![tactic(auto)]

ghost use Rattle.std.specs.Prelude.{◌≡◌, ◌<◌, ◌≤◌, length, take, drop, eqb};
ghost use Rattle.xliff.specs.Parse.{read, most_bytes, most_records};
ghost use Rattle.places.specs.Passes.{Passes};
ghost use Rattle.glance.specs.Glances.{kind_of};
ghost use Rattle.contents.specs.Heads.{head_kind, inside_after_head, is_found};
ghost use Rattle.contents.specs.Contents.{barred, bar_key, bar_keys};

use glance::Head;
use sequences::MarkerRoom;

// Whether what follows a record is of a content that is asked for.
// As `sequences::inside_source`, whose crate stands below and asks for no targets.
fn inside_after(targets: bool, head: Head, inside: bool) -> bool
    ensures { result ≡ inside_after_head targets (kind_of head) inside }
{
    head.is_part() | ((head.is_target() & targets) | (head.is_other() & inside))
}

// Whether a record is a head, or a marker of a content that is asked for.
fn is_found(head: Head, inside: bool, marker: bool) -> bool
    ensures { result ≡ is_found (kind_of head) inside marker }
{
    !head.is_other() | (inside & marker)
}

// The offsets of the heads (SG, IG, TG) and of the markers of source contents and, where `targets`, of target contents,
// in table order.
// As `sequences::sources` with other tests: one walk of both would take two closures with contracts.
fn contents(t: &[u8], targets: bool, out: &mut [u16]) -> usize
    requires { Passes t.now × (length t.now ≤ most_bytes) × (length out.old ≡ most_records) }
    ensures { (take result out.new ≡ barred targets t.now) × (result ≤ most_records) × (length out.new ≡ most_records) }
{
    let mut at: usize = 0;
    let mut inside = false;
    let mut m: usize = 0;
    // The lent table is read record by record through the walker.
    while at < t.len() {
        let g = walker::glance_at(t, at);
        m = sequences::put_if(is_found(g.head, inside, g.marker), out, m, at as u16);
        inside = inside_after(targets, g.head, inside);
        at += g.width;
    }
    m
}

// Whether TG stands at the head of `s`, and is not cut: no field of it can be bad.
fn is_target(s: &[u8]) -> bool
    ensures { result ≡ eqb (head_kind (read s.now)) 1 }
{
    s.len() >= marks::TARGET_WIDTH && marks::marked_by(s, b"TG")
}

// The key of the record at an offset: 1 for TG, 0 for all but TG and markers, also where no record is.
// A number, since it stands in one array with the keys of markers, which are numbers (`MarkerRoom`).
fn bar_key(t: &[u8], at: usize) -> u32
    ensures { result ≡ bar_key (read (drop at t.now)) }
{
    if t.len() < at {
        return 0;
    }
    if is_target(&t[at..]) {
        return 1;
    }
    keys::key_at(t, at)
}

// The keys of the heads and markers at some offsets, at the front of `out`. As `keys::keys_at` with another key: one
// function of both would take the key as a closure with a contract, and be no plainer.
fn bar_keys(t: &[u8], markers: &[u16], out: &mut [u32])
    requires { length markers.now ≤ length out.old }
    ensures { (take (length markers.now) out.new ≡ bar_keys t.now markers.now) × (length out.new ≡ length out.old) }
{
    for i in 0..markers.len() {
        out[i] = bar_key(t, marks::wide(markers[i]));
    }
}

// The heads and markers of the contents of a table.
pub fn hold_contents(t: &[u8], targets: bool, room: &mut MarkerRoom)
    requires { Passes t.now × (length t.now ≤ most_bytes) }
    ensures { (take room.new.count room.new.markers ≡ barred targets t.now)
        × (take room.new.count room.new.keys ≡ bar_keys t.now (take room.new.count room.new.markers)) }
{
    room.count = contents(t, targets, &mut room.markers);
    bar_keys(t, &room.markers[..room.count], &mut room.keys);
}
