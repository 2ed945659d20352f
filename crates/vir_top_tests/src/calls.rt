// A call on a bench that serves every module, over a shelf and sinks in memory, and the words and files of most calls.
use std::alloc::{AllocError, Global};
use std::process::Abort;
use vir_counter::{EliminatorCounter, FixedCounter, OrderCounter, PluralityCounter};
use vir_machine::Bench;
use vir_outside::{MemoryShelf, MemorySink, Shelf};
use vir_score::KeptScore;
use vir_term::Score;
use vir_top::virage;

pub(crate) const DIVIDED: &[u8] = b"# NUMBER ALTERNATIVES: 3\n4: 1,2,3\n3: 2,3,1\n2: 3,2,1\n";

pub(crate) const ELECT: &[u8] = b"r = elect;";

pub(crate) const SHORT: &[u8] = b"# NUMBER ALTERNATIVES: 3\n3: 1,2\n3: 2,3,1\n2: 3,2,1\n";

pub(crate) const EMPTY: &[u8] = b"text refused: EmptyBook at byte 0\n";

pub(crate) const USAGE: &[u8] = b"usage fault\n";

pub(crate) const UNREAD: &[u8] = b"read fault\n";

pub(crate) const COUNT: &[&str] = &["count", "rule.vir", "votes.soc"];

pub(crate) const PLURALITY: &[u8] = b"r = plurality;";

pub(crate) const FIRST_WINS: &[u8] = b"elected: 1\nrejected: 2 3\ndeferred:\n";

pub(crate) const DRILL: &[&str] = &["drill", "0", "1", "3"];

pub(crate) const SECOND_WINS: &[u8] = b"elected: 2\nrejected: 1 3\ndeferred:\n";

// All scores: the bench has a counter of the eliminators of each.
const SCORES: [Score; 5] = [
    Score::Plurality,
    Score::Borda,
    Score::Copeland,
    Score::Minimax,
    Score::Condorcet,
];

pub(crate) fn full_shelf(
    alloc: Global,
    rule: &[u8],
    profile: &[u8],
) -> Result<MemoryShelf, AllocError> {
    let mut shelf = MemoryShelf::new(alloc);
    shelf.put("rule.vir", rule)?;
    shelf.put("votes.soc", profile)?;
    Ok(shelf)
}

pub(crate) fn owned(alloc: Global, words: &[&str]) -> Result<Vec<String>, AllocError> {
    let mut owned = Vec::new(alloc);
    for word in words {
        owned.push(word.to_string(alloc)?)?;
    }
    Ok(owned)
}

// The status of a call with these words.
pub(crate) fn status_of<S: Shelf>(
    alloc: Global,
    words: &[&str],
    shelf: &mut S,
    out: &mut MemorySink,
    err: &mut MemorySink,
) -> Result<u8, AllocError> {
    let words = owned(alloc, words)?;
    let mut bench = Bench::new(alloc);
    bench.push(Box::new(alloc, FixedCounter::new())?)?;
    bench.push(Box::new(alloc, OrderCounter::new())?)?;
    bench.push(Box::new(alloc, PluralityCounter::new())?)?;
    for score in SCORES {
        let scoring = KeptScore::new(score);
        bench.push(Box::new(alloc, EliminatorCounter::new(scoring))?)?;
    }
    Ok(virage(alloc, &words, shelf, out, err, &mut bench))
}

// A call with these words answers the status, and these bytes are written to sinks that take some at
// a time.
pub(crate) fn expect_call(
    rt: &impl Abort,
    alloc: Global,
    words: &[&str],
    shelf: &mut MemoryShelf,
    status: u8,
    text: &[u8],
    line: &[u8],
) -> Result<(), AllocError> {
    let mut out = MemorySink::new(alloc, 8);
    let mut err = MemorySink::new(alloc, 8);
    let answered = status_of(alloc, words, shelf, &mut out, &mut err)?;
    assert!(rt;
        answered == status,
        "{words:?} gives {answered} in place of {status}"
    );
    assert!(rt; out.bytes() == text, "{words:?} prints something else");
    assert!(rt; err.bytes() == line, "{words:?} reports something else");
    Ok(())
}
