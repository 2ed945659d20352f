// What conclusions say of sets of alternatives.
ghost use Rattle.std.specs.Prelude.{◌≡◌, ◌≤◌, ◌↔◌, ℕ, true, IsTrue};
ghost use Rattle.std.specs.FinSet as set;
ghost use Rattle.vir_altset.specs.Sets.{limit};
ghost use Rattle.vir_mean.specs.Properties.{just, StaysOrBecomes, MakesProgress, IsCompatible};

use vir_profile::{AltSet, Split};

/// The set of x alone.
pub fn just(x: u16) -> AltSet
    requires { (1 ≤ x) × (x ≤ limit) }
    ensures { result ≡ just x }
{
    AltSet::empty().with(x)
}

/// Whether nobody is in it.
pub fn is_none(a: &AltSet) -> bool
    ensures { IsTrue result ↔ (a.now ≡ set.empty) }
{
    a.equals(&AltSet::empty())
}

/// Whether the second set is the first one, or that of x alone.
pub fn stays_or_becomes(x: u16, before: &AltSet, after: &AltSet) -> bool
    requires { (1 ≤ x) × (x ≤ limit) }
    ensures { IsTrue result ↔ StaysOrBecomes x before.now after.now }
{
    after.equals(before) || after.equals(&just(x))
}

/// Whether two splits are the same.
pub fn same_split(one: &Split, other: &Split) -> bool
    ensures { IsTrue result ↔ (one.now ≡ other.now) }
{
    one.elected.equals(&other.elected)
        && one.rejected.equals(&other.rejected)
        && one.deferred.equals(&other.deferred)
}

/// Whether nobody is elected, w stays deferred, and where there are two or more not all do.
pub fn makes_progress(w: u16, domain: &AltSet, split: &Split) -> bool
    requires { (1 ≤ w) × (w ≤ limit) }
    ensures { IsTrue result ↔ MakesProgress w domain.now split.now }
{
    is_none(&split.elected)
        && split.deferred.has(w)
        && (domain.count() < 2 || !split.deferred.equals(domain))
}

// Whether nobody but w is elected.
fn elects_no_other(w: u16, elected: &AltSet) -> bool
    requires { (1 ≤ w) × (w ≤ limit) }
    ensures { IsTrue result ↔ ((x : ℕ) → set.contains elected.now x ≡ true → x ≡ w) }
{
    is_none(&elected.minus(&just(w)))
}

// Whether all others are rejected where w is elected.
fn rejects_others(w: u16, domain: &AltSet, split: &Split) -> bool
    requires { (1 ≤ w) × (w ≤ limit) }
    ensures { IsTrue result ↔ (set.contains split.now.elected w ≡ true
        → split.now.rejected ≡ set.difference domain.now (just w)) }
{
    !split.elected.has(w) || split.rejected.equals(&domain.minus(&just(w)))
}

/// Whether w isn't rejected, nobody else is elected, and where w is elected all others are rejected.
pub fn is_compatible(w: u16, domain: &AltSet, split: &Split) -> bool
    requires { (1 ≤ w) × (w ≤ limit) }
    ensures { IsTrue result ↔ IsCompatible w domain.now split.now }
{
    !split.rejected.has(w) && elects_no_other(w, &split.elected) && rejects_others(w, domain, split)
}
