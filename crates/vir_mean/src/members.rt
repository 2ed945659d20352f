// The members of a set, listed in an array.
ghost use Rattle.std.specs.Prelude.{◌≡◌, ◌≤◌, length, take};
ghost use Rattle.vir_altset.specs.Members.{members};
ghost use Rattle.vir_altset.specs.Sets.{limit};
ghost use Rattle.vir_mean.specs.Members.{AreMembers};

use vir_profile::{AltSet, LIMIT};

/// Lists the members of a set at the front of an array, ascending, and tells how many there are.
pub fn list_members(domain: &AltSet, list: &mut [u16]) -> usize
    requires { length list.old ≡ limit }
    ensures size { length list.new ≡ limit }
    ensures few { result ≤ limit }
    ensures members { AreMembers domain.now (take result list.new) }
    ensures ascending { take result list.new ≡ members domain.now }
{
    domain.bounded();
    let mut count = 0;
    let mut last = 0;
    for _turn in 0..LIMIT {
        match domain.first_after(last) {
            Some(x) => {
                list[count] = x;
                count += 1;
                last = x;
            }
            None => break,
        }
    }
    count
}
