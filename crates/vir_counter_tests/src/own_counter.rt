// A counter of one's own on a bench: it serves `elect`, and remembers how many alternatives it elected.
ghost use Rattle.std.specs.Prelude.{[], ◌∷◌};
ghost use Rattle.vir_term.specs.declared.leaf.LeafKind.TheVariants as kind;

use std::alloc::{AllocError, Global};
use std::test::Fail;
use vir_compile::compile;
use vir_counter::{Counter, PluralityCounter};
use vir_machine::{Bench, Machine};
use vir_profile::{AltSet, Ballot, Entry, Profile, SocFile, Split};
use vir_tables::Election;
use vir_term::{Leaf, Term};

#[derive(Drop)]
struct ElectCounter {
    calls: u64,
    elected: u16,
}

impl Counter for ElectCounter {
    ghost kinds = { λ _. kind.Elect ∷ [] };

    ghost made = { λ counter. counter.calls };

    fn serves(&self, leaf: &Leaf) -> bool {
        matches!(leaf, Leaf::Elect)
    }

    fn split(&mut self, leaf: &Leaf, election: &Election, domain: &AltSet) -> Split {
        self.calls = self.calls.saturating_add(1);
        self.elected = domain.count();
        match leaf {
            Leaf::Elect => Split {
                elected: *domain,
                rejected: AltSet::empty(),
                deferred: AltSet::empty(),
            },
            _ => unreachable!(),
        }
    }

    fn calls(&self) -> u64 {
        self.calls
    }
}

// Two voters of one opinion.
fn election(alloc: Global) -> Result<Election, Fail> {
    let mut profile = Profile::new(alloc, 2);
    let order = Ballot::from_slice(alloc, &[2, 1])?;
    profile
        .add(Entry { weight: 2, order })
        .map_err(|refused| refused.fault)?;
    Ok(Election::of(alloc, SocFile::of(profile, Vec::new(alloc)))?)
}

fn plurality_then_elect(alloc: Global) -> Result<Term, AllocError> {
    let first = Box::new(alloc, Term::Leaf(Leaf::Plurality))?;
    Ok(Term::Seq(first, Box::new(alloc, Term::Leaf(Leaf::Elect))?))
}

#[test]
fn a_bench_takes_a_counter_of_ones_own(rt: HostRuntime) -> Result<(), Fail> {
    let alloc = rt.alloc();
    let election = election(alloc)?;
    let rule = plurality_then_elect(alloc)?;
    let mut bench = Bench::new(alloc);
    let own = ElectCounter {
        calls: 0,
        elected: 0,
    };
    bench.push(Box::new(alloc, own)?)?;
    bench.push(Box::new(alloc, PluralityCounter::new())?)?;
    assert!(rt; rule.within_limits() && bench.serves_all(&rule));
    let code = compile(alloc, &rule)?;
    let mut machine = Machine::new(alloc, code.depth())?;
    let domain = AltSet::all(election.alternatives());
    let split = machine.run(&code, &election, &mut bench, &domain);
    assert!(rt; split.elected.count() == 1 && split.elected.has(2));
    assert!(rt; bench.calls_of(0) == Some(1) && bench.runs() == 1);
    Ok(())
}
