// A rule that is compiled once for many runs.
ghost use Rattle.std.specs.Prelude.{◌≡◌, ◌≤◌, true, IfOk, OnOk, OnErr};
ghost use Rattle.vir_altset.specs.Sets.{all};
ghost use Rattle.vir_code.specs.Code.{code_of};
ghost use Rattle.vir_code.specs.Depth.{depth_of};
ghost use Rattle.vir_machine.specs.Runs.{after_run, seen, served_by};
ghost use Rattle.vir_machine.specs.Uses.{all_served};
ghost use Rattle.vir_mean.specs.Meaning.{mean};
ghost use Rattle.vir_term.specs.Limits.{IsWithinLimits};
ghost use Rattle.vir_term.specs.Tree.{Tree, tree};

use std::alloc::{AllocError, Global};
use vir_code::Code;
use vir_compile::compile;
use vir_counting::election_for;
use vir_machine::{Bench, Machine};
use vir_profile::{AltSet, SocFile, Split};
use vir_tables::Election;
use vir_term::Term;

/// A rule, its code, and the machine that runs it.
#[derive(Drop)]
pub struct CompiledRule<'a> {
    pub rule: &'a Term,
    code: Code,
    machine: Machine,
    ghost is_code: { code ≡ code_of (tree rule.now) },
    ghost depth: { (t : Tree) → code ≡ code_of t → machine ≡ depth_of t },
}

// The split that the code's rule gives of all alternatives of an election, by a run on the bench.
fn run_on_all(machine: &mut Machine, code: &Code, bench: &mut Bench, election: &Election) -> Split
    requires depth { (t : Tree) → code.now ≡ code_of t → depth_of t ≤ machine.old }
    requires served { (t : Tree) × (code.now ≡ code_of t)
        × (all_served (served_by (seen kinds made bench.old)) t ≡ true) }
    ensures split { (t : Tree) → code.now ≡ code_of t
        → result ≡ mean t (all election.now.profile.alternatives) election.now.profile.lines }
    ensures ran { (t : Tree) → code.now ≡ code_of t → seen kinds made bench.new
        ≡ after_run (record { term = t; votes = election.now.profile }) (seen kinds made bench.old) }
    ensures depth { machine.new ≡ machine.old }
{
    let domain = AltSet::all(election.alternatives());
    machine.run(code, election, bench, &domain)
}

impl<'a> CompiledRule<'a> {
    /// The code of a rule, and a machine for it.
    pub fn of(alloc: Global, rule: &'a Term) -> Result<CompiledRule<'a>, AllocError>
        requires { IsWithinLimits (tree rule.now) }
        ensures { IfOk result (λ compiled. compiled.rule.now ≡ rule.now) }
    {
        let code = compile(alloc, rule)?;
        let machine = Machine::new(alloc, code.depth())?;
        Ok(CompiledRule {
            rule,
            code,
            machine,
        })
    }

    /// The split that the rule gives of all alternatives of a profile, by a run on the bench. What the profile took of
    /// memory is given back.
    pub fn split_of(
        &mut self,
        alloc: Global,
        bench: &mut Bench,
        file: SocFile,
    ) -> Result<Split, AllocError>
        requires { all_served (served_by (seen kinds made bench.old)) (tree self.old.rule.now) ≡ true }
        ensures split { IfOk result (λ split. split ≡ mean (tree self.old.rule.now)
            (all file.profile.alternatives) file.profile.lines) }
        ensures ran { OnOk result (seen kinds made bench.new
            ≡ after_run (record { term = tree self.old.rule.now; votes = file.profile }) (seen kinds made bench.old)) }
        ensures stays { OnErr result (seen kinds made bench.new ≡ seen kinds made bench.old) }
        ensures same { self.new.rule.now ≡ self.old.rule.now }
    {
        let election = election_for(alloc, self.rule, file)?;
        Ok(run_on_all(&mut self.machine, &self.code, bench, &election))
    }
}
