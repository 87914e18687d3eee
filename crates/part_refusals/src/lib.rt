// What split and join refuse of parts: 12, 14 and 16.
#![tactic(auto)]

ghost use Rattle.std.specs.Prelude.{◌≡◌, true, false, ◌&&◌, cond, ◌+◌, ◌-◌, ◌<◌, ◌≤◌, length, eqb};
ghost use Rattle.xliff.specs.Parse.{unit};
ghost use Rattle.xliff.specs.Split.{id_taken};
ghost use Rattle.places.specs.Passes.{Passes};
ghost use Rattle.xliff.specs.Bytes.{two_at};
ghost use Rattle.part_at.specs.Stands.{Standing};
ghost use Rattle.part_refusals.specs.Refusals.{closed_in, closed_by, ClosedIs, BadOrdersAre};

use part_at::PartPlace;
use table::{Read, Record};

fn letter_or(unit: u8, d: u8) -> u8
    ensures { result ≡ cond (eqb d 45) unit d }
{
    if d == b'-' { unit } else { d }
}

fn closed_in(unit: u8, x: Record) -> bool
    ensures { result ≡ closed_in unit x }
{
    match x {
        Record::Segment(f) => letter_or(unit, f.can_resegment) == b'N',
        Record::Ignorable(_) => unit == b'N',
        _ => false,
    }
}

fn closed_by(unit: u8, r: Read) -> bool
    ensures { result ≡ closed_by unit r }
{
    match r {
        Read::Good(x, _) => closed_in(unit, x),
        _ => false,
    }
}

// 12: whether a part is closed to resegmenting.
pub fn is_closed(t: &[u8], place: PartPlace) -> bool
    requires { Standing t.now place }
    ensures { ClosedIs t.now place result }
{
    let unit = heads::unit_resegment(t);
    closed_by(unit, walker::known_at(t, place.head))
}

// Whether the record at an offset has the id. `named`: it is that of a part or a marker, whose id stands behind the
// mark.
fn has_id(t: &[u8], at: usize, named: bool, id: u16) -> bool
    requires { named ≡ true → at + 4 ≤ length t.now }
    ensures { result ≡ (named && eqb (two_at t.now (at + 2)) id) }
{
    if named {
        return marks::number_at(t, at + 2) == id;
    }
    false
}

// 14: whether an id is not 0 and that of a part or an inline record.
pub fn is_taken(t: &[u8], id: u16) -> bool
    requires { Passes t.now }
    ensures { result ≡ id_taken (unit t.now).parts id }
{
    if id == 0 {
        return false;
    }
    let mut at = 0;
    // The lent table is read record by record through the walker.
    while at < t.len() {
        let g = walker::glance_at(t, at);
        if has_id(t, at, g.head.is_part() | g.marker, id) {
            return true;
        }
        at += g.width;
    }
    false
}

// 16: whether both parts have targets and the second order is not the first plus 1.
pub fn bad_orders(x: PartPlace, y: PartPlace) -> bool
    ensures { BadOrdersAre x y result }
{
    let Some(first) = x.order else {
        return false;
    };
    let Some(second) = y.order else {
        return false;
    };
    u32::from(second) != u32::from(first) + 1
}
