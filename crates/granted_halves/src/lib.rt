// Whether the halves of an id stand in granted parts.
#![tactic(auto)]

ghost use Rattle.std.specs.Prelude.{◌≡◌, not, ◌&&◌};
ghost use Rattle.xliff.specs.Parse.{unit};
ghost use Rattle.xliff.specs.Rules.{half_of_id};
ghost use Rattle.places.specs.Passes.{Passes};
ghost use Rattle.places.specs.Markers.{item_at};
ghost use Rattle.grants.specs.Grant.{within, halves_within};
ghost use Rattle.granted_parts.specs.Roles.{grant_of};

use granted_parts::Grant;

// Whether the item at an offset is a half of the id, in a content of the side, and its part `n` is outside the grant.
// The half of a view is the specification's number (crate views): 0 for none.
fn stands_outside(t: &[u8], at: usize, grant: Grant, n: usize, inside: bool, id: u16) -> bool
    ensures { result ≡ (inside && half_of_id id (item_at t.now at))
        && not (within (grant_of grant.entry.role grant.entry.positions.now) n) }
{
    let v = views::view_at(t, at);
    if !(inside & (!(v.half == 0) & (v.id == id))) {
        return false;
    }
    !grant.has_part(n)
}

// Whether the halves of the id on the side stand in granted parts.
pub fn halves_within(t: &[u8], grant: Grant, side: u8, id: u16) -> bool
    requires { Passes t.now }
    ensures { result ≡ halves_within (grant_of grant.entry.role grant.entry.positions.now) side id 1
        (unit t.now).parts }
{
    let source = side == b'S';
    let mut at: usize = 0;
    let mut n: usize = 0;
    let mut inside = false;
    // The lent table is read record by record through the walker.
    while at < t.len() {
        let g = walker::glance_at(t, at);
        if stands_outside(t, at, grant, n, inside, id) {
            return false;
        }
        n += usize::from(g.head.is_part());
        inside = rewrite_marks::inside_of(source, inside, g.head);
        at += g.width;
    }
    true
}
