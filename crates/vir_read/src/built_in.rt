// The words that are built in.
ghost use Rattle.std.specs.Prelude.{◌≡◌};
ghost use Rattle.std.specs.Str.{bytes_eq};
ghost use Rattle.vir_read.specs.BuiltIns.{score_named, only_score, composition_named, module_named, built_in_named};
ghost use Rattle.vir_read.specs.BuiltIns.{takes, is_only_score};

use vir_term::Score;

/// A word that is built in.
#[derive(Clone, Copy, Debug, PartialEq, Eq)]
pub enum BuiltIn {
    /// A module without arguments.
    Plain(Plain),
    /// A module with a number and, if wanted, a fixed order.
    Ordered(Ordered),
    /// A module with a score.
    Eliminator(Eliminator),
    /// A composition of one term.
    Rev,
    /// A composition of two terms.
    Pair(Pair),
    /// A composition of a number and a term.
    Loop(LoopEnd),
    /// A score that isn't a module as well.
    OnlyScore(Score),
}

/// A module without arguments.
#[derive(Clone, Copy, Debug, PartialEq, Eq)]
pub enum Plain {
    Elect,
    Defer,
    Plurality,
}

/// A module that defers or rejects the first ones of a fixed order.
#[derive(Clone, Copy, Debug, PartialEq, Eq)]
pub enum Ordered {
    Pass,
    Drop,
}

/// A module that rejects by a score.
#[derive(Clone, Copy, Debug, PartialEq, Eq)]
pub enum Eliminator {
    Max,
    Min,
    Below,
    Upto,
}

/// A composition of two terms, one after the other or side by side.
#[derive(Clone, Copy, Debug, PartialEq, Eq)]
pub enum Pair {
    Seq,
    Par,
}

/// Where a composition of a number and a term ends: at just so many alternatives, or at so many or fewer.
#[derive(Clone, Copy, Debug, PartialEq, Eq)]
pub enum LoopEnd {
    Exactly,
    AtMost,
}

impl BuiltIn {
    /// Whether the word may have so many arguments.
    pub fn takes(self, count: usize) -> bool
        ensures { result ≡ takes self count }
    {
        match self {
            BuiltIn::Plain(_) => count == 0,
            BuiltIn::Ordered(_) => count == 1 || count == 2,
            BuiltIn::Eliminator(_) | BuiltIn::Rev => count == 1,
            BuiltIn::Pair(_) | BuiltIn::Loop(_) => count == 2,
            BuiltIn::OnlyScore(_) => false,
        }
    }

    /// Whether the word is a score, and so no term.
    pub fn is_only_score(self) -> bool
        ensures { result ≡ is_only_score self }
    {
        matches!(self, BuiltIn::OnlyScore(_))
    }
}

// Whether the name is this word.
fn is(name: &[u8], word: &str) -> bool
    ensures { result ≡ bytes_eq name.now word.now }
{
    name == word.as_bytes()
}

/// What a word means, where it is built in.
pub fn built_in_named(name: &[u8]) -> Option<BuiltIn>
    ensures { result ≡ built_in_named name.now }
{
    if is(name, "elect") {
        Some(BuiltIn::Plain(Plain::Elect))
    } else if is(name, "defer") {
        Some(BuiltIn::Plain(Plain::Defer))
    } else if is(name, "plurality") {
        Some(BuiltIn::Plain(Plain::Plurality))
    } else {
        module_named(name)
    }
}

// The same, where it is none of the modules without arguments.
fn module_named(name: &[u8]) -> Option<BuiltIn>
    ensures { result ≡ module_named name.now }
{
    if is(name, "pass") {
        Some(BuiltIn::Ordered(Ordered::Pass))
    } else if is(name, "drop") {
        Some(BuiltIn::Ordered(Ordered::Drop))
    } else if is(name, "max") {
        Some(BuiltIn::Eliminator(Eliminator::Max))
    } else if is(name, "min") {
        Some(BuiltIn::Eliminator(Eliminator::Min))
    } else if is(name, "below") {
        Some(BuiltIn::Eliminator(Eliminator::Below))
    } else if is(name, "upto") {
        Some(BuiltIn::Eliminator(Eliminator::Upto))
    } else {
        composition_named(name)
    }
}

// The same, where it is no module.
fn composition_named(name: &[u8]) -> Option<BuiltIn>
    ensures { result ≡ composition_named name.now }
{
    if is(name, "rev") {
        Some(BuiltIn::Rev)
    } else if is(name, "seq") {
        Some(BuiltIn::Pair(Pair::Seq))
    } else if is(name, "par") {
        Some(BuiltIn::Pair(Pair::Par))
    } else if is(name, "loop") {
        Some(BuiltIn::Loop(LoopEnd::Exactly))
    } else if is(name, "until") {
        Some(BuiltIn::Loop(LoopEnd::AtMost))
    } else {
        score_named(name).map(BuiltIn::OnlyScore)
    }
}

/// The score that a word names.
pub fn score_named(name: &[u8]) -> Option<Score>
    ensures { result ≡ score_named name.now }
{
    if is(name, "plurality") {
        Some(Score::Plurality)
    } else if is(name, "borda") {
        Some(Score::Borda)
    } else if is(name, "copeland") {
        Some(Score::Copeland)
    } else if is(name, "minimax") {
        Some(Score::Minimax)
    } else if is(name, "condorcet") {
        Some(Score::Condorcet)
    } else {
        None
    }
}
