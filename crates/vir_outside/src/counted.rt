// What the shelf and the sink in memory share: calls are numbered from 1, and the listed ones fail.
ghost use Rattle.std.specs.Prelude.{◌≡◌, if◌then◌else◌};
ghost use Rattle.vir_outside.specs.Faults.{one_more};
ghost use Rattle.vir_outside.specs.Memory.{is_next_listed};

// Counts one call, and a fault where the call is listed. Says whether it is.
pub fn count_call(failing: &[u64], calls: &mut u64, faults: &mut u64) -> bool
    ensures listed { result ≡ is_next_listed failing.now calls.old }
    ensures calls { calls.new ≡ one_more calls.old }
    ensures faults { faults.new ≡ (if result then one_more faults.old else faults.old) }
{
    *calls = calls.saturating_add(1);
    let is_listed = failing.contains(calls);
    if is_listed {
        *faults = faults.saturating_add(1);
    }
    is_listed
}
