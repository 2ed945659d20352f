// What the rows of the table are written with. A row on one term speaks of that term t, of its parts m and n
// in their order, and of a number k. A row on a pair of terms speaks of the first part m of the one that is
// composed, and of the other term u.
use vir_term::Prop;

/// A property as a row writes it.
#[derive(Clone, Copy)]
pub enum Wanted {
    /// This one.
    Is(Prop),
    /// `defers` of the number k.
    DefersK,
    /// `rejects` of the number k.
    RejectsK,
}

/// The modules that a row is about: those that have something in common.
#[derive(Clone, Copy)]
pub enum Family {
    /// `defer`, `pass`, `drop` and the four eliminators: they elect nobody.
    ElectingNobody,
    /// `elect`: it elects all.
    ElectingAll,
    /// `elect` and `plurality`: they elect somebody.
    ElectingSome,
    /// `defer`, `pass` and the four eliminators: they never reject all.
    KeepingSome,
    /// `drop`: it rejects somebody.
    Dropping,
    /// `elect`, `defer`, `pass`, `drop` and `plurality`: they don't eliminate by a score.
    Unscored,
    /// `max` of `plurality`, `borda`, `copeland` and `condorcet`: a lift of one of the leaders leaves them as
    /// they are, or leaves it alone.
    Leading,
    /// The four eliminators: a lift of one that they keep keeps it.
    Eliminating,
    /// `max` of `copeland`, `minimax` and `condorcet`: they keep a Condorcet winner alone.
    Winning,
    /// `min`, `below` and `upto` of all scores but `plurality`: they keep a Condorcet winner and reject somebody.
    Progressing,
    /// `defer`: it leaves all undecided.
    Deferring,
    /// `elect`, `defer`, `plurality` and the four eliminators: they have no order of their own.
    Unordered,
}

/// The outermost form of a term that a row is about.
#[derive(Clone, Copy)]
pub enum Shape {
    /// Any form.
    Any,
    /// A module of the family.
    ModuleOf(Family),
    /// `pass` of the number k.
    PassK,
    /// `drop` of the number k.
    DropK,
    /// Revision.
    Rev,
    /// Sequential composition.
    Seq,
    /// Parallel composition.
    Par,
    /// A loop of any number.
    Loop,
    /// A loop of the number k.
    LoopK,
    /// A loop of the number 1.
    LoopOne,
    /// An until of any number.
    Until,
    /// An until of the number k.
    UntilK,
    /// An until of the number 1.
    UntilOne,
}

/// Two terms that a row calls disjoint. The one that is composed has the first part m; the other is u.
#[derive(Clone, Copy)]
pub enum Pairing {
    /// `pass` and `drop` of one number and one fixed order.
    PassDrop,
    /// `drop` and `pass` of one number and one fixed order.
    DropPass,
    /// The left term is a sequence.
    SeqLeft,
    /// The right term is a sequence.
    SeqRight,
    /// The left term is a revision.
    RevLeft,
    /// The right term is a revision.
    RevRight,
}

/// What a row concludes.
#[derive(Clone, Copy)]
pub enum Conclusion {
    /// That a term of this shape has this property.
    Has(Wanted, Shape),
    /// That two terms so paired are disjoint.
    Apart(Pairing),
}

/// A term that a premise is about.
#[derive(Clone, Copy)]
pub enum Part {
    /// The first part of t; in a pairing, that of the term that is composed.
    M,
    /// The second part of t.
    N,
    /// The whole term t.
    T,
    /// In a pairing, the other term u.
    U,
}

/// A premise as a row writes it.
#[derive(Clone, Copy)]
pub enum Need {
    /// That the part has this property.
    Of(Wanted, Part),
    /// That the two parts are disjoint.
    Disj(Part, Part),
}

// A row of the table: the name of its rule, what it concludes, and its premises in their order.
#[derive(Clone, Copy)]
pub(crate) struct Row(
    pub(crate) &'static str,
    pub(crate) Conclusion,
    pub(crate) &'static [Need],
);
