// A run of a rule on a profile.
ghost use Rattle.std.specs.Prelude.{◌≡◌, true, IfOk, OnOk, OnErr};
ghost use Rattle.vir_altset.specs.Sets.{all};
ghost use Rattle.vir_machine.specs.Uses.{all_served};
ghost use Rattle.vir_mean.specs.Meaning.{mean};
ghost use Rattle.vir_term.specs.Limits.{IsWithinLimits};
ghost use Rattle.vir_term.specs.Tree.{tree};
ghost use Rattle.vir_machine.specs.Runs.{after_run, seen, served_by};

use crate::pairs::asks_about_pairs;
use std::alloc::{AllocError, Global};
use vir_compile::compile;
use vir_machine::{Bench, Machine};
use vir_profile::{AltSet, SocFile, Split};
use vir_tables::Election;
use vir_term::Term;

/// The split that the rule gives of all alternatives of the election, by a run on the bench.
pub fn split_of(
    alloc: Global,
    bench: &mut Bench,
    rule: &Term,
    election: &Election,
) -> Result<Split, AllocError>
    requires within { IsWithinLimits (tree rule.now) }
    requires served { all_served (served_by (seen kinds made bench.old)) (tree rule.now) ≡ true }
    ensures split { IfOk result (λ split. split ≡ mean (tree rule.now) (all election.now.profile.alternatives)
        election.now.profile.lines) }
    ensures ran { OnOk result (seen kinds made bench.new
        ≡ after_run (record { term = tree rule.now; votes = election.now.profile }) (seen kinds made bench.old)) }
    ensures stays { OnErr result (seen kinds made bench.new ≡ seen kinds made bench.old) }
{
    let code = compile(alloc, rule)?;
    let mut machine = Machine::new(alloc, code.depth())?;
    let domain = AltSet::all(election.alternatives());
    Ok(machine.run(&code, election, bench, &domain))
}

/// The election of a file, with a table of pairs where the rule asks about them.
pub fn election_for(alloc: Global, rule: &Term, file: SocFile) -> Result<Election, AllocError>
    ensures { IfOk result (λ election. election ≡ file) }
{
    if asks_about_pairs(rule) {
        Election::of(alloc, file)
    } else {
        Ok(Election::without_table(file))
    }
}

/// The split that the rule gives of all alternatives of the profile, by a run on the bench.
pub fn split_of_file(
    alloc: Global,
    bench: &mut Bench,
    rule: &Term,
    file: SocFile,
) -> Result<Split, AllocError>
    requires within { IsWithinLimits (tree rule.now) }
    requires served { all_served (served_by (seen kinds made bench.old)) (tree rule.now) ≡ true }
    ensures split { IfOk result (λ split. split ≡ mean (tree rule.now) (all file.profile.alternatives)
        file.profile.lines) }
    ensures ran { OnOk result (seen kinds made bench.new
        ≡ after_run (record { term = tree rule.now; votes = file.profile }) (seen kinds made bench.old)) }
    ensures stays { OnErr result (seen kinds made bench.new ≡ seen kinds made bench.old) }
{
    let election = election_for(alloc, rule, file)?;
    split_of(alloc, bench, rule, &election)
}
