// Elections, as they are asked about voters and pairs.
ghost use Rattle.std.specs.Prelude.{◌≡◌, true, false, length, nat_eq, slice_get, IfOk};
ghost use Rattle.std.specs.FinSet as set;
ghost use Rattle.std.specs.Option.{option_copied};
ghost use Rattle.vir_altset.specs.Sets.{all, limit, IsPart};
ghost use Rattle.vir_mean.specs.Numbers.{AreNumbers};
ghost use Rattle.vir_mean.specs.Scores.{beats};
ghost use Rattle.vir_profile.specs.Profiles.{IsProfile, first_weight, pairwise_weight, restrict, total_weight};
ghost use Rattle.vir_profile.specs.SocFiles.{name_of};

use crate::first_places::{first_weight_of, first_weights_of};
use crate::pairs::{pairwise_weight_of, pairwise_weights_of};
use crate::table::{fill, index};
use std::alloc::{AllocError, Global};
use std::marker::Model;
use vir_mean::Tally;
use vir_profile::{AltSet, Entry, SocFile};

/// A profile to be counted, with the names of its alternatives. It may have a table with a number for
/// each ordered pair of them. Restriction to a set keeps the number of each pair of its members, so
/// one table serves all sets. Without one, each question about a pair goes over the lines. The answers
/// are the same.
#[derive(Drop)]
pub struct Election {
    file: SocFile,
    table: Option<Vec<u64>>,
}

impl Model for Election {
    ghost use Rattle.std.specs.Prelude.{IfSome};
    ghost use Rattle.vir_profile.specs.SocFiles.{File};
    ghost use Rattle.vir_tables.specs.Table.{IsTable};

    ghost Value = { File };

    ghost view = { λ a. a.file };

    ghost invariant = { λ a. IfSome a.table (λ table.
        IsTable a.file.profile.alternatives table.items a.file.profile.lines) };
}

impl Election {
    /// The election of this file, with a table. It takes memory for the table, 8 bytes a pair, and while it
    /// fills it 256 bytes an alternative, and drops the file where that is wanting.
    pub fn of(alloc: Global, file: SocFile) -> Result<Election, AllocError>
        ensures { IfOk result (λ election. election ≡ file) }
    {
        let profile = file.profile();
        let m = profile.alternatives();
        let mut table = vec![in alloc; 0u64; usize::from(m) * usize::from(m)]?;
        fill(alloc, &mut table, m, profile.entries(), profile.total())?;
        Ok(Election {
            file,
            table: Some(table),
        })
    }

    /// The election of this file without a table: for rules that don't ask about pairs. It takes no
    /// memory.
    pub fn without_table(file: SocFile) -> Election
        ensures { result ≡ file }
    {
        Election { file, table: None }
    }

    /// Whether it has a table, so that a question about a pair is one look into it.
    pub fn has_table(&self) -> bool {
        self.table.is_some()
    }

    /// The number of alternatives, which are the numbers from 1 to it.
    pub fn alternatives(&self) -> u16
        ensures number { result ≡ self.now.profile.alternatives }
        ensures limits { IsProfile self.now.profile }
    {
        self.file.profile().alternatives()
    }

    /// The number of voters: the sum of all weights.
    pub fn voters(&self) -> u64
        ensures { result ≡ total_weight self.now.profile.lines }
    {
        self.file.profile().total()
    }

    /// How many lines its profile has: the orders that were cast, each with its number of voters.
    pub fn lines(&self) -> usize
        ensures { result ≡ length self.now.profile.lines }
    {
        self.file.profile().lines()
    }

    /// The line at a place, from 0 on; None exactly where there is none.
    pub fn line(&self, i: usize) -> Option<&Entry>
        ensures { option_copied result ≡ slice_get self.now.profile.lines i }
    {
        self.file.profile().line(i)
    }

    /// The name of alternative x, if its file gives one.
    pub fn name(&self, x: u16) -> Option<&[u8]>
        ensures { option_copied result ≡ name_of x self.now.names }
    {
        self.file.name(x)
    }

    /// How many voters put x before y. It goes over the lines where there is no table.
    pub fn prefers(&self, x: u16, y: u16) -> u64
        requires first { set.contains (all self.now.profile.alternatives) x ≡ true }
        requires second { set.contains (all self.now.profile.alternatives) y ≡ true }
        ensures { result ≡ pairwise_weight self.now.profile.lines x y }
    {
        let profile = self.file.profile();
        match &self.table {
            Some(table) => table[index(profile.alternatives(), x, y)],
            None => pairwise_weight_of(profile.entries(), x, y),
        }
    }

    /// How many voters put x before y, and how many y before x. It goes over the lines once where there is no table.
    pub fn prefers_each(&self, x: u16, y: u16) -> (u64, u64)
        requires first { set.contains (all self.now.profile.alternatives) x ≡ true }
        requires second { set.contains (all self.now.profile.alternatives) y ≡ true }
        requires apart { nat_eq x y ≡ false }
        ensures { result ≡ (pairwise_weight self.now.profile.lines x y, pairwise_weight self.now.profile.lines y x) }
    {
        let profile = self.file.profile();
        match &self.table {
            Some(_) => (self.prefers(x, y), self.prefers(y, x)),
            None => pairwise_weights_of(profile.entries(), x, y),
        }
    }

    /// Whether more voters put x before y than y before x.
    pub fn beats(&self, x: u16, y: u16) -> bool
        requires first { set.contains (all self.now.profile.alternatives) x ≡ true }
        requires second { set.contains (all self.now.profile.alternatives) y ≡ true }
        ensures { result ≡ beats self.now.profile.lines x y }
    {
        self.prefers(x, y) > self.prefers(y, x)
    }

    /// How many voters put x first among the members of the set; 0 where x is no member. It goes over
    /// the lines once.
    pub fn first_weight(&self, domain: &AltSet, x: u16) -> u64
        ensures { result ≡ first_weight (restrict domain.now self.now.profile.lines) x }
    {
        first_weight_of(self.file.profile().entries(), domain, x)
    }

    /// For each alternative, how many voters put it first among the members of the set: the number
    /// of x at place x - 1, and 0 where x is no member. It goes over the lines once for all of them.
    pub fn first_weights(&self, domain: &AltSet, weights: &mut [u64])
        requires { length weights.old ≡ limit }
        ensures { AreNumbers (first_weight (restrict domain.now self.now.profile.lines)) weights.new }
    {
        first_weights_of(self.file.profile().entries(), domain, weights);
    }
}

impl Tally for Election {
    ghost may = { λ election domain. IsPart domain (all election.profile.alternatives) };

    ghost lines = { λ election domain. restrict domain election.profile.lines };

    fn voters(&self, domain: &AltSet) -> u64 {
        self.voters()
    }

    fn prefers(&self, domain: &AltSet, x: u16, y: u16) -> u64 {
        self.prefers(x, y)
    }

    fn beats(&self, domain: &AltSet, x: u16, y: u16) -> bool {
        self.beats(x, y)
    }

    fn first_weight(&self, domain: &AltSet, x: u16) -> u64 {
        self.first_weight(domain, x)
    }

    fn first_weights(&self, domain: &AltSet, weights: &mut [u64]) {
        self.first_weights(domain, weights);
    }
}
