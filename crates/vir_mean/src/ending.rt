// Where a loop ends.
ghost use Rattle.std.specs.Prelude.{◌↔◌, IsTrue};
ghost use Rattle.std.specs.FinSet as set;
ghost use Rattle.vir_mean.specs.Compositions.{IsEnd};
ghost use Rattle.vir_mean.specs.Endings.{end_of};

use vir_profile::AltSet;

/// Where a loop ends.
#[derive(Clone, Copy)]
pub enum Ending {
    /// At just so many alternatives.
    Exactly(u32),
    /// At so many or fewer.
    AtMost(u32),
}

/// Whether a loop ends at the set.
pub fn ends_at(ending: Ending, domain: &AltSet) -> bool
    ensures { IsTrue result ↔ IsEnd (end_of ending) (set.len domain.now) }
{
    let size = u32::from(domain.count());
    match ending {
        Ending::Exactly(k) => size == k,
        Ending::AtMost(k) => size <= k,
    }
}
