// The kinds of faults.
ghost use Rattle.std.specs.Prelude.{◌≡◌};
ghost use Rattle.vir_soc.specs.Kinds.{kind_name, kind_number};

/// What is wrong with a file, in the order of the kinds' numbers, which begin at 1.
#[derive(Clone, Copy, Debug, PartialEq, Eq)]
pub enum SocKind {
    /// A metadata line whose value must be a number has none, or one out of its range.
    BadNumber,
    /// No metadata line has stated the number of alternatives.
    NoAlternativeCount,
    /// There are more alternatives than this program takes.
    TooManyAlternatives,
    /// The file says that it holds other data than strict complete orders.
    WrongType,
    /// What stands before the colon of a line of votes is not a number.
    BadCount,
    /// A line of votes has no colon.
    NoColon,
    /// A part of an order is not a number.
    BadEntry,
    /// A part of an order is the number of no alternative.
    OutOfRange,
    /// An order lists an alternative twice.
    Repeated,
    /// An order lacks an alternative.
    Short,
    /// An order has a brace, which stands round alternatives that tie.
    Tie,
    /// There are more lines of votes than this program takes.
    TooManyOrders,
    /// There are more voters than 2^64 - 1.
    TooManyVoters,
    /// The number of voters that metadata states is not the sum of the counts.
    VotersDiffer,
    /// The number of orders that metadata states is not the number of lines of votes.
    OrdersDiffer,
    /// The file has more bytes than this program takes.
    FileTooLong,
    /// Two metadata lines state different numbers of the same thing.
    CountDiffers,
}

impl SocKind {
    /// The kind's number, from 1 on.
    pub fn number(self) -> u8
        ensures { result ≡ kind_number self }
    {
        self as u8 + 1
    }

    /// The kind's name, as it is written here.
    pub fn name(self) -> &'static str
        ensures { result.now ≡ kind_name self }
    {
        match self {
            SocKind::BadNumber => "BadNumber",
            SocKind::NoAlternativeCount => "NoAlternativeCount",
            SocKind::TooManyAlternatives => "TooManyAlternatives",
            SocKind::WrongType => "WrongType",
            SocKind::BadCount => "BadCount",
            SocKind::NoColon => "NoColon",
            SocKind::BadEntry => "BadEntry",
            SocKind::OutOfRange => "OutOfRange",
            SocKind::Repeated => "Repeated",
            SocKind::Short => "Short",
            SocKind::Tie => "Tie",
            SocKind::TooManyOrders => "TooManyOrders",
            SocKind::TooManyVoters => "TooManyVoters",
            SocKind::VotersDiffer => "VotersDiffer",
            SocKind::OrdersDiffer => "OrdersDiffer",
            SocKind::FileTooLong => "FileTooLong",
            SocKind::CountDiffers => "CountDiffers",
        }
    }
}
