// The order of a target that is set.
#![tactic(auto)]

ghost use Rattle.std.specs.Prelude.{◌≡◌, ◌≤◌};
ghost use Rattle.xliff.specs.Unit.{orders};
ghost use Rattle.xliff.specs.Parse.{unit, most_parts};
ghost use Rattle.xliff.specs.SetTarget.{lowest_unused};
ghost use Rattle.places.specs.Passes.{Passes};
ghost use Rattle.target_order.specs.Order.{NewOrderIs};

use part_at::PartPlace;

// The lowest of 1 to `n` that no target has for its order, else the next.
fn lowest_unused(t: &[u8], n: u16) -> u16
    requires { Passes t.now × (n ≤ most_parts) }
    ensures { result ≡ lowest_unused 1 n (orders (unit t.now).parts) }
{
    for q in 1..n + 1 {
        if !join_orders::is_order(t, q) {
            return q;
        }
    }
    n + 1
}

// The order of the part's target; without one the part's position `n` if no target has it, else the lowest unused.
pub fn new_order(t: &[u8], n: u16, place: PartPlace) -> u16
    requires { Passes t.now }
    ensures { NewOrderIs t.now n place result }
{
    if let Some(order) = place.order {
        return order;
    }
    if !join_orders::is_order(t, n) {
        return n;
    }
    let k = orders::count_parts(t);
    lowest_unused(t, k as u16)
}
