// A call over a shelf in memory, and what it comes to.
use std::alloc::{AllocError, Global};
use std::process::Abort;
use vir_batch::{batch, batch_of_files, read_manifest};
use vir_book::read_book;
use vir_counter::{EliminatorCounter, FixedCounter};
use vir_course::{Answer, Stop};
use vir_machine::Bench;
use vir_outside::{MemoryShelf, Shelf};
use vir_score::KeptScore;
use vir_term::Score;

/// The alternative that beats both others is elected.
pub(crate) const COPELAND: &[u8] = b"r = seq(max(copeland),elect);";

const DIVIDED: &[u8] = b"# NUMBER ALTERNATIVES: 3\n4: 1,2,3\n3: 2,3,1\n2: 3,2,1\n";

const SHORT: &[u8] = b"# NUMBER ALTERNATIVES: 3\n3: 1,2\n3: 2,3,1\n2: 3,2,1\n";

/// What a call answered, and how often the bench and its two counters were asked.
#[derive(Drop)]
pub(crate) struct Outcome {
    pub(crate) answer: Result<Answer, Stop>,
    pub(crate) runs: u64,
    pub(crate) copeland: Option<u64>,
    pub(crate) fixed: Option<u64>,
}

/// A shelf with a profile `F` that is accepted, and a profile `G` that is refused.
pub(crate) fn full_shelf(alloc: Global) -> Result<MemoryShelf, AllocError> {
    let mut shelf = MemoryShelf::new(alloc);
    shelf.put("F", DIVIDED)?;
    shelf.put("G", SHORT)?;
    Ok(shelf)
}

/// What a rule and a manifest come to on a bench that serves Copeland's scores and the fixed modules.
pub(crate) fn outcome_of<S: Shelf>(
    rt: &impl Abort,
    alloc: Global,
    shelf: &mut S,
    rule: &[u8],
    manifest: &[u8],
) -> Result<Outcome, AllocError> {
    let Ok(book) = read_book(alloc, rule) else {
        panic!(rt; "no rule");
    };
    let Ok(names) = read_manifest(alloc, manifest) else {
        panic!(rt; "no manifest");
    };
    let mut bench = Bench::new(alloc);
    let scoring = KeptScore::new(Score::Copeland);
    bench.push(Box::new(alloc, EliminatorCounter::new(scoring))?)?;
    bench.push(Box::new(alloc, FixedCounter::new())?)?;
    let answer = batch(alloc, shelf, &mut bench, book.last_rule(), &names);
    Ok(Outcome {
        answer,
        runs: bench.runs(),
        copeland: bench.calls_of(0),
        fixed: bench.calls_of(1),
    })
}

/// What the files `rule.vir` and `names.txt` come to, on the same bench.
pub(crate) fn answer_of_files<S: Shelf>(
    alloc: Global,
    shelf: &mut S,
) -> Result<Result<Answer, Stop>, AllocError> {
    let mut bench = Bench::new(alloc);
    let scoring = KeptScore::new(Score::Copeland);
    bench.push(Box::new(alloc, EliminatorCounter::new(scoring))?)?;
    bench.push(Box::new(alloc, FixedCounter::new())?)?;
    Ok(batch_of_files(alloc, shelf, &mut bench, "rule.vir", "names.txt"))
}

/// Whether an answer is this text.
pub(crate) fn is_text(answer: &Result<Answer, Stop>, text: &[u8]) -> bool {
    match answer {
        Ok(Answer::Text(bytes)) => bytes.as_slice() == text,
        _ => false,
    }
}

/// Whether reading a file failed, or it is missing.
pub(crate) fn is_unread(answer: &Result<Answer, Stop>) -> bool {
    match answer {
        Err(Stop::ReadFault) => true,
        _ => false,
    }
}
