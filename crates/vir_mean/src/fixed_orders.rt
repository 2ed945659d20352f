// The first members of a set in a fixed order.
ghost use Rattle.std.specs.Prelude.{◌≡◌};
ghost use Rattle.vir_mean.specs.FixedOrders.{first_members};

use vir_profile::{AltSet, LIMIT};
use vir_term::FixedOrder;

/// The first k members of a set in a fixed order, or all of them where there are fewer. It goes over
/// the list once, and then over the members that aren't listed.
pub fn first_members(k: u32, order: &FixedOrder, domain: &AltSet) -> AltSet
    ensures { result ≡ first_members k order.now domain.now }
{
    domain.bounded();
    let mut first = AltSet::empty();
    let mut left = *domain;
    let mut room = k;
    for i in 0..order.len() {
        if room == 0 {
            return first;
        }
        let x = order.at(i);
        if left.has(x) {
            first.put(x);
            left = left.without(x);
            room -= 1;
        }
    }
    let mut last = 0;
    for _turn in 0..LIMIT {
        if room == 0 {
            return first;
        }
        match left.first_after(last) {
            Some(x) => {
                first.put(x);
                left = left.without(x);
                room -= 1;
                last = x;
            }
            None => return first,
        }
    }
    first
}
