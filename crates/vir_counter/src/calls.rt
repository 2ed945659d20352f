// Numbers of calls.
ghost use Rattle.std.specs.Prelude.{◌≡◌};
ghost use Rattle.vir_counter.specs.Calls.{risen};

// A number of calls with one call more, or as it is where it is the greatest.
pub(crate) fn one_more(calls: u64) -> u64
    ensures { result ≡ risen calls 1 }
{
    calls.saturating_add(1)
}
