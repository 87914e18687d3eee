// The orders of targets where two parts are joined.
#![tactic(auto)]

ghost use Rattle.std.specs.Prelude.{◌≡◌, ◌-◌, ◌<◌};
ghost use Rattle.xliff.specs.Bytes.{among};
ghost use Rattle.xliff.specs.Unit.{orders};
ghost use Rattle.xliff.specs.Parse.{unit};
ghost use Rattle.xliff.specs.Join.{highest_unused};
ghost use Rattle.places.specs.Passes.{Passes};
ghost use Rattle.join_orders.specs.Falls.{FallsAbove};

use part_at::PartPlace;

// Whether a target has the order `q`.
pub fn is_order(t: &[u8], q: u16) -> bool
    requires { Passes t.now }
    ensures { result ≡ among q (orders (unit t.now).parts) }
{
    let mut at = 0;
    // The lent table is read record by record through the walker.
    while at < t.len() {
        let g = walker::glance_at(t, at);
        if g.head.sets(q) {
            return true;
        }
        at += g.width;
    }
    false
}

// The highest value in 1 to `n` that no target has for its order, else 0: no order is lower, so all fall.
fn highest_unused(t: &[u8], n: u16) -> u16
    requires { Passes t.now }
    ensures { result ≡ highest_unused n (orders (unit t.now).parts) }
{
    // Downwards: a range turned round has the items that it gave in place of the count of those passed.
    for passed in 0..n {
        let k = n - passed;
        if !is_order(t, k) {
            return k;
        }
    }
    0
}

// The order above which all fall by 1 where the parts at `x` and `y` are joined.
pub fn falls_above(t: &[u8], x: PartPlace, y: PartPlace) -> u16
    requires { Passes t.now }
    ensures { FallsAbove t.now x y result }
{
    match (x.order, y.order) {
        (Some(first), Some(_)) => first,
        _ => {
            let n = orders::count_parts(t);
            highest_unused(t, n as u16)
        }
    }
}
