// The instructions.
use vir_term::Leaf;

/// One instruction of counting code, for a machine with a domain, a stack of splits and a stack of
/// domains. Positions are counted from the start of the code, at 0.
#[derive(Debug, Drop)]
pub enum Instr {
    /// Pushes the module's split of the domain.
    Call(Leaf),
    /// Pushes the domain.
    KeepDomain,
    /// Makes what the top split defers the domain.
    FetchDomain,
    /// Joins the two top splits as one after the other, and pops the domain.
    JoinSeq,
    /// Merges the two top splits, which are of the same domain.
    JoinMax,
    /// Defers what the top split elects, and rejects the rest of the domain.
    Revise,
    /// Pushes the domain, and a split that defers all of it.
    StartLoop,
    /// Leaves the loop where the domain has exactly `k` members. `exit` is the position of the loop's
    /// end.
    LoopTest { k: u32, exit: usize },
    /// Leaves the loop where the domain has at most `k` members. `exit` is the position of the loop's
    /// end.
    UntilTest { k: u32, exit: usize },
    /// Pops the split of one turn. Where it defers the whole domain, the loop is over; else it is
    /// joined to those of the turns before, and the next turn decides on what it defers. `start` is
    /// the position of the loop's test.
    LoopBack { start: usize },
    /// Pops the domain.
    EndLoop,
}
