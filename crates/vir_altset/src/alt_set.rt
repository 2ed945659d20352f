// Sets of alternatives, kept as words of bits.
ghost use Rattle.std.specs.Prelude.{◌≡◌, ◌<◌, ◌≤◌, ◌↔◌, ◌^◌, ◌-◌, IsTrue, IfSome, MatchOption};
ghost use Rattle.std.specs.FinSet as set;
ghost use Rattle.vir_altset.specs.Keep.{IsKept};
ghost use Rattle.vir_altset.specs.Sets.{all, limit, IsBounded, IsLast, IsNext};

use crate::LIMIT;
use std::marker::Model;

/// The number of words of bits. With 64 bits each they reach to [`LIMIT`].
const WORDS: usize = 16;

/// A set of alternatives, seen as a finite set of numbers. Each member is 1 to [`LIMIT`], as
/// [`AltSet::bounded`] tells a caller.
#[derive(Clone, Copy)]
pub struct AltSet {
    // Bit i of word k is set where 64 k + i + 1 is a member.
    words: [u64; WORDS],
}

impl Model for AltSet {
    ghost use Rattle.std.specs.Coded.{coded_ℕ};
    ghost use Rattle.std.specs.FinSet as set;
    ghost use Rattle.std.proofs.Common.{ap};
    ghost use Rattle.vir_altset.specs.Sets.{Set};
    ghost use Rattle.vir_altset.specs.Words.{set_of, word_count, words_of, AreWords};
    ghost use Rattle.vir_altset.specs.WordsBack.{words_of-set_of};

    ghost Value = { Set };

    ghost coded = { set.code coded_ℕ };

    ghost view = { λ a. set_of word_count a.words };

    ghost invariant = { λ a. AreWords word_count a.words };

    ghost inverse = { λ s. record { words = words_of word_count 0 s } };

    ghost inverse_ok = { λ a h. ap (λ w. record { words = w }) (words_of-set_of word_count a.words h) };
}

impl AltSet {
    /// The set with no members.
    pub fn empty() -> AltSet
        ensures { result ≡ set.empty }
    {
        AltSet { words: [0; WORDS] }
    }

    /// The numbers 1 to `m`.
    pub fn all(m: u16) -> AltSet
        requires { m ≤ limit }
        ensures { result ≡ all m }
    {
        let mut words = [0; WORDS];
        let mut left = m;
        for i in 0..WORDS {
            let size = left.min(64);
            words[i] = low_bits(size);
            left -= size;
        }
        AltSet { words }
    }

    /// Whether `x` is a member.
    pub fn has(&self, x: u16) -> bool
        requires at_least_one { 1 ≤ x }
        requires within_limit { x ≤ limit }
        ensures { result ≡ set.contains self.now x }
    {
        let i = usize::from(x) - 1;
        (self.words[i / 64] >> (i % 64)) & 1 == 1
    }

    /// The set with `x` as a member too. To fill a set in a loop, use [`AltSet::put`].
    pub fn with(&self, x: u16) -> AltSet
        requires at_least_one { 1 ≤ x }
        requires within_limit { x ≤ limit }
        ensures { result ≡ set.insert self.now x }
    {
        let mut larger = *self;
        larger.put(x);
        larger
    }

    /// Makes `x` a member.
    pub fn put(&mut self, x: u16)
        requires at_least_one { 1 ≤ x }
        requires within_limit { x ≤ limit }
        ensures { self.new ≡ set.insert self.old x }
    {
        let i = usize::from(x) - 1;
        self.words[i / 64] |= 1u64 << (i % 64);
    }

    /// The set without `x`.
    pub fn without(&self, x: u16) -> AltSet
        requires at_least_one { 1 ≤ x }
        requires within_limit { x ≤ limit }
        ensures { result ≡ set.remove self.now x }
    {
        let i = usize::from(x) - 1;
        let mut words = self.words;
        words[i / 64] &= !(1u64 << (i % 64));
        AltSet { words }
    }

    /// The members of either set.
    pub fn union(&self, other: &AltSet) -> AltSet
        ensures { result ≡ set.union self.now other.now }
    {
        let mut words = self.words;
        for i in 0..WORDS {
            words[i] |= other.words[i];
        }
        AltSet { words }
    }

    /// The members of both sets.
    pub fn inter(&self, other: &AltSet) -> AltSet
        ensures { result ≡ set.intersection self.now other.now }
    {
        let mut words = self.words;
        for i in 0..WORDS {
            words[i] &= other.words[i];
        }
        AltSet { words }
    }

    /// The members that are not in `other`.
    pub fn minus(&self, other: &AltSet) -> AltSet
        ensures { result ≡ set.difference self.now other.now }
    {
        let mut words = self.words;
        for i in 0..WORDS {
            words[i] &= !other.words[i];
        }
        AltSet { words }
    }

    /// Whether the two sets have the same members.
    pub fn equals(&self, other: &AltSet) -> bool
        ensures { IsTrue result ↔ (self.now ≡ other.now) }
    {
        self.words == other.words
    }

    /// The number of members.
    pub fn count(&self) -> u16
        ensures exact { result ≡ set.len self.now }
        ensures within_limit { result ≤ limit }
    {
        let mut n = 0;
        for i in 0..WORDS {
            n += self.words[i].count_ones() as u16;
        }
        n
    }

    /// The least member above `x`, and `None` where there is none. With 0 for `x` it is the least
    /// member of all, so the members are met in ascending order, each from the one before.
    pub fn first_after(&self, x: u16) -> Option<u16>
        requires { x ≤ limit }
        ensures least { MatchOption result (IsLast self.now x) (λ y. IsNext self.now x y) }
        ensures within_limit { IfSome result (λ y. y ≤ limit) }
    {
        let words = &self.words;
        if x == LIMIT {
            return None;
        }
        let at = usize::from(x) / 64;
        let word = words[at] & (u64::MAX << (x % 64));
        if word != 0 {
            return Some(at as u16 * 64 + word.trailing_zeros() as u16 + 1);
        }
        for i in at + 1..WORDS {
            let word = words[i];
            if word != 0 {
                return Some(i as u16 * 64 + word.trailing_zeros() as u16 + 1);
            }
        }
        None
    }

    /// Does nothing. Its clause tells a caller that each member is 1 to [`LIMIT`].
    pub fn bounded(&self)
        ensures { IsBounded self.now }
    {
        let _ = &self.words;
    }

    /// The members that pass `test`, which is called once for each member, in ascending order.
    /// Where `test` can only tell `p x` of `x`, the result is `set.retain self p`, by the lemma
    /// `kept_is` of `proofs/KeepLaws.antt`.
    pub fn keep<F: Fn(u16) -> bool>(&self, test: F) -> AltSet
        requires { F.IsAlwaysCallable test }
        ensures { IsKept self.now result (F.post test) }
    {
        self.bounded();
        let mut kept = AltSet::empty();
        for x in 1..LIMIT + 1 {
            if self.has(x) && test(x) {
                kept.put(x);
            }
        }
        kept
    }
}

/// The word whose lowest `size` bits are set.
fn low_bits(size: u16) -> u64
    requires { size ≤ 64 }
    ensures { result ≡ 2 ^ size - 1 }
{
    if size == 64 {
        u64::MAX
    } else {
        (1u64 << size) - 1
    }
}
