// Sets on both sides of the border between the words, at 64 and 65.
ghost use Rattle.std.specs.Prelude.{◌≤◌};

use crate::{AltSet, LIMIT, Split, split_join, split_sizes};
use std::process::Abort;

// The set of x alone has x and no other.
fn expect_single(rt: &impl Abort, x: u16)
    requires { (1 ≤ x) × (x ≤ LIMIT) }
{
    let single = AltSet::empty().with(x);
    assert!(rt; single.has(x), "at {x}");
    assert!(rt; single.count() == 1, "at {x}");
    assert!(rt; single.first_after(0) == Some(x), "at {x}");
    assert!(rt; single.first_after(x - 1) == Some(x), "at {x}");
    assert!(rt; single.first_after(x) == None, "at {x}");
    assert!(rt; single.without(x).equals(&AltSet::empty()), "at {x}");
}

// Among all, x can be taken away, and it alone is left of the first x without those before it.
fn expect_among_all(rt: &impl Abort, x: u16)
    requires { (1 ≤ x) × (x ≤ LIMIT) }
{
    assert!(rt; !AltSet::all(LIMIT).without(x).has(x), "at {x}");
    let single = AltSet::empty().with(x);
    assert!(rt;
        AltSet::all(x).minus(&AltSet::all(x - 1)).equals(&single),
        "at {x}"
    );
}

const MEMBERS: &[u16] = &[1, 2, 63, 64, 65, 127, 128, 129, 960, 961, 1_023, 1_024];

#[test]
fn one_member_in_either_word(rt: HostRuntime) {
    for x in MEMBERS {
        let x = *x;
        assert!(rt; 1 <= x && x <= LIMIT);
        expect_single(&rt, x);
        expect_among_all(&rt, x);
    }
}

fn expect_first(rt: &impl Abort, m: u16, has_64: bool, has_65: bool)
    requires { m ≤ LIMIT }
{
    let first = AltSet::all(m);
    first.bounded();
    assert!(rt; first.count() == m, "the first {m}");
    assert!(rt; first.has(64) == has_64, "the first {m}");
    assert!(rt; first.has(65) == has_65, "the first {m}");
    assert!(rt; first.first_after(m) == None, "the first {m}");
}

// How many of the first, and whether 64 and 65 are among them.
const FIRST: &[(u16, bool, bool)] = &[
    (0, false, false),
    (63, false, false),
    (64, true, false),
    (65, true, true),
    (128, true, true),
    (1_024, true, true),
];

#[test]
fn the_first_m(rt: HostRuntime) {
    for (m, has_64, has_65) in FIRST {
        let m = *m;
        assert!(rt; m <= LIMIT);
        expect_first(&rt, m, *has_64, *has_65);
    }
}

const ENDS: &[u16] = &[128, 65, 64, 1];

// The first and the last of each word.
fn ends(rt: &impl Abort) -> AltSet {
    let mut ends = AltSet::empty();
    for x in ENDS {
        let x = *x;
        assert!(rt; 1 <= x && x <= LIMIT);
        ends.put(x);
    }
    ends
}

// A number, and the least of the ends above it.
const NEXT: &[(u16, Option<u16>)] = &[
    (0, Some(1)),
    (1, Some(64)),
    (63, Some(64)),
    (64, Some(65)),
    (65, Some(128)),
    (127, Some(128)),
    (128, None),
    (1_024, None),
];

#[test]
fn members_in_ascending_order(rt: HostRuntime) {
    let ends = ends(&rt);
    for (x, next) in NEXT {
        let x = *x;
        assert!(rt; x <= LIMIT);
        assert!(rt; ends.first_after(x) == *next, "at {x}");
    }
}

#[test]
fn sets_across_the_words(rt: HostRuntime) {
    let ends = ends(&rt);
    let low = AltSet::all(64);
    assert!(rt; ends.union(&low).count() == 66);
    assert!(rt; ends.inter(&low).count() == 2);
    assert!(rt; ends.minus(&low).count() == 2);
    assert!(rt; low.minus(&ends).count() == 62);
    assert!(rt; ends.keep(|x| x % 2 == 0).count() == 2);
    assert!(rt; !ends.equals(&low));
    assert!(rt; ends.equals(&ends.inter(&low).union(&ends.minus(&low))));
}

#[test]
fn parts_of_a_split(rt: HostRuntime) {
    split_sizes();
    split_join();
    let ends = ends(&rt);
    let low = AltSet::all(64);
    let split = Split {
        elected: low.inter(&ends),
        rejected: low.minus(&ends),
        deferred: AltSet::empty(),
    };
    assert!(rt; split.elected.count() + split.rejected.count() + split.deferred.count() == 64);
}
