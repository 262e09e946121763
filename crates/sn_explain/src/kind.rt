//! The kinds of lines that snet writes on standard error.
ghost use Rattle.std.specs.Prelude.{◌≡◌};
ghost use Rattle.sn_explain.specs.Kinds.{words_of, shape_of};

use crate::sentences;

/// What a line says, but for the places and names in it.
#[derive(Clone, Copy, PartialEq, Eq)]
pub enum Kind {
    Usage,
    Read,
    TooLarge,
    BadUtf8,
    BadChar,
    NumberTooWide,
    TextOpen,
    Unexpected,
    Unknown,
    Twice,
    Arity,
    GuardTag,
    NoMain,
    NoRoute,
    BadOutput,
    BadLine,
    TwiceOnLine,
    Untyped,
    Fuel,
    Overflow,
    DivZero,
    WrongKind,
    Index,
    Depth,
    Memory,
    Write,
    TooDeep,
    LargeTree,
    Names,
    Variants,
    Records,
    LongLine,
    BadEvent,
    NotEnabled,
    Unfinished,
}

/// What stands in a line behind the words of its kind.
#[derive(Clone, Copy, PartialEq, Eq)]
pub enum Shape {
    Nothing,
    /// A place of the source.
    Place,
    /// A place of the source, and a variant.
    PlaceForVariant,
    /// The number of a line of the input.
    Line,
    /// The number of a line of the input, and a label.
    LineAndLabel,
    /// The number of a line of a trace, which is not among the files.
    TraceLine,
    /// A name, or other words.
    Name,
}

/// All kinds.
pub static KINDS: [Kind; 35] = [
    Kind::Usage,
    Kind::Read,
    Kind::TooLarge,
    Kind::BadUtf8,
    Kind::BadChar,
    Kind::NumberTooWide,
    Kind::TextOpen,
    Kind::Unexpected,
    Kind::Unknown,
    Kind::Twice,
    Kind::Arity,
    Kind::GuardTag,
    Kind::NoMain,
    Kind::NoRoute,
    Kind::BadOutput,
    Kind::BadLine,
    Kind::TwiceOnLine,
    Kind::Untyped,
    Kind::Fuel,
    Kind::Overflow,
    Kind::DivZero,
    Kind::WrongKind,
    Kind::Index,
    Kind::Depth,
    Kind::Memory,
    Kind::Write,
    Kind::TooDeep,
    Kind::LargeTree,
    Kind::Names,
    Kind::Variants,
    Kind::Records,
    Kind::LongLine,
    Kind::BadEvent,
    Kind::NotEnabled,
    Kind::Unfinished,
];

impl Kind {
    /// The words that a line of the kind begins with.
    pub fn words(self) -> &'static [u8]
        ensures { result.now ≡ words_of self }
    {
        match self {
            Kind::Usage => b"usage: ",
            Kind::Read => b"read: ",
            Kind::TooLarge => b"too large: ",
            Kind::BadUtf8 => b"source: BadUtf8 at ",
            Kind::BadChar => b"source: BadChar at ",
            Kind::NumberTooWide => b"source: NumberTooWide at ",
            Kind::TextOpen => b"source: TextOpen at ",
            Kind::Unexpected => b"source: Unexpected at ",
            Kind::Unknown => b"source: Unknown at ",
            Kind::Twice => b"source: Twice at ",
            Kind::Arity => b"source: Arity at ",
            Kind::GuardTag => b"source: GuardTag at ",
            Kind::NoMain => b"source: NoMain",
            Kind::NoRoute => b"type: NoRoute at ",
            Kind::BadOutput => b"type: BadOutput at ",
            Kind::BadLine => b"input: BadLine ",
            Kind::TwiceOnLine => b"input: Twice ",
            Kind::Untyped => b"input: Untyped ",
            Kind::Fuel => b"fault: Fuel at ",
            Kind::Overflow => b"fault: Overflow at ",
            Kind::DivZero => b"fault: DivZero at ",
            Kind::WrongKind => b"fault: Kind at ",
            Kind::Index => b"fault: Index at ",
            Kind::Depth => b"fault: Depth at ",
            Kind::Memory => b"memory",
            Kind::Write => b"write",
            Kind::TooDeep => b"limit: TooDeep at ",
            Kind::LargeTree => b"limit: TooLarge at ",
            Kind::Names => b"limit: Names",
            Kind::Variants => b"limit: Variants at ",
            Kind::Records => b"limit: Records at line ",
            Kind::LongLine => b"limit: Line ",
            Kind::BadEvent => b"trace: BadLine ",
            Kind::NotEnabled => b"trace: NotEnabled ",
            Kind::Unfinished => b"trace: Unfinished",
        }
    }

    /// What stands behind them.
    pub fn shape(self) -> Shape
        ensures { result ≡ shape_of self }
    {
        match self {
            Kind::Usage => Shape::Name,
            Kind::Read => Shape::Name,
            Kind::TooLarge => Shape::Name,
            Kind::BadUtf8 => Shape::Place,
            Kind::BadChar => Shape::Place,
            Kind::NumberTooWide => Shape::Place,
            Kind::TextOpen => Shape::Place,
            Kind::Unexpected => Shape::Place,
            Kind::Unknown => Shape::Place,
            Kind::Twice => Shape::Place,
            Kind::Arity => Shape::Place,
            Kind::GuardTag => Shape::Place,
            Kind::NoMain => Shape::Nothing,
            Kind::NoRoute => Shape::PlaceForVariant,
            Kind::BadOutput => Shape::PlaceForVariant,
            Kind::BadLine => Shape::Line,
            Kind::TwiceOnLine => Shape::LineAndLabel,
            Kind::Untyped => Shape::Line,
            Kind::Fuel => Shape::Place,
            Kind::Overflow => Shape::Place,
            Kind::DivZero => Shape::Place,
            Kind::WrongKind => Shape::Place,
            Kind::Index => Shape::Place,
            Kind::Depth => Shape::Place,
            Kind::Memory => Shape::Nothing,
            Kind::Write => Shape::Nothing,
            Kind::TooDeep => Shape::Place,
            Kind::LargeTree => Shape::Place,
            Kind::Names => Shape::Nothing,
            Kind::Variants => Shape::Place,
            Kind::Records => Shape::Line,
            Kind::LongLine => Shape::Line,
            Kind::BadEvent => Shape::TraceLine,
            Kind::NotEnabled => Shape::TraceLine,
            Kind::Unfinished => Shape::Nothing,
        }
    }

    /// What a line of the kind means, and what would mend it.
    pub fn sentence(self) -> &'static [u8] {
        match self {
            Kind::Usage => sentences::USAGE,
            Kind::Read => sentences::READ,
            Kind::TooLarge => sentences::TOO_LARGE,
            Kind::BadUtf8 => sentences::BAD_UTF8,
            Kind::BadChar => sentences::BAD_CHAR,
            Kind::NumberTooWide => sentences::NUMBER_TOO_WIDE,
            Kind::TextOpen => sentences::TEXT_OPEN,
            Kind::Unexpected => sentences::UNEXPECTED,
            Kind::Unknown => sentences::UNKNOWN,
            Kind::Twice => sentences::TWICE,
            Kind::Arity => sentences::ARITY,
            Kind::GuardTag => sentences::GUARD_TAG,
            Kind::NoMain => sentences::NO_MAIN,
            Kind::NoRoute => sentences::NO_ROUTE,
            Kind::BadOutput => sentences::BAD_OUTPUT,
            Kind::BadLine => sentences::BAD_LINE,
            Kind::TwiceOnLine => sentences::TWICE_ON_LINE,
            Kind::Untyped => sentences::UNTYPED,
            Kind::Fuel => sentences::FUEL,
            Kind::Overflow => sentences::OVERFLOW,
            Kind::DivZero => sentences::DIV_ZERO,
            Kind::WrongKind => sentences::WRONG_KIND,
            Kind::Index => sentences::INDEX,
            Kind::Depth => sentences::DEPTH,
            Kind::Memory => sentences::MEMORY,
            Kind::Write => sentences::WRITE,
            Kind::TooDeep => sentences::TOO_DEEP,
            Kind::LargeTree => sentences::LARGE_TREE,
            Kind::Names => sentences::NAMES,
            Kind::Variants => sentences::VARIANTS,
            Kind::Records => sentences::RECORDS,
            Kind::LongLine => sentences::LONG_LINE,
            Kind::BadEvent => sentences::BAD_EVENT,
            Kind::NotEnabled => sentences::NOT_ENABLED,
            Kind::Unfinished => sentences::UNFINISHED,
        }
    }
}
