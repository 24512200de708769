use mspec_tree::{Place, Simple};
use node_tree::EvalFault;

/// The numbers from `low` to `high`, both of them too.
#[derive(Clone, Copy, Debug, PartialEq, Eq)]
pub struct Range {
    pub low: i128,
    pub high: i128,
}

/// What a definition's name stands for in a type's place.
#[derive(Clone, Copy, Debug, PartialEq, Eq)]
pub enum Target {
    /// The enum at this place, whose numbers have this type.
    Enum { def: usize, base: Simple },
    /// A value of the definition at this place.
    Group(usize),
}

/// What an array's items are.
#[derive(Clone, Copy, Debug, PartialEq, Eq)]
pub enum ItemOf {
    /// Numbers, flags, floats or enum values of so many bits.
    Bits(u8),
    /// Values of the definition at this place. In an array by count the last one has the last-item mark.
    GroupOf { def: usize, counted: bool },
}

/// What a field, a parameter or an expression is.
#[derive(Clone, Copy, Debug, PartialEq, Eq)]
pub enum Meant {
    /// A number of this range. One whose type has no width that a number may have gets a range that holds no number.
    Number(Range),
    Flag,
    /// A number of the enum at this place.
    EnumOf(usize),
    /// A value of the definition at this place. `case` is the number of the case as which it was taken, from 1, else 0.
    GroupOf { def: usize, case: usize },
    ListOf(ItemOf),
    /// An array of the type `byte`.
    Bytes,
    /// A floating number.
    Raw,
    /// The word `null`.
    Null,
}

/// Why an expression has no range.
#[derive(Clone, Copy, Debug, PartialEq, Eq)]
pub enum ExprWhy {
    /// A value may leave -2^63 to 2^64 - 1.
    TooWide,
    /// A divisor may be 0.
    DivisorMayBeZero,
    /// An operand of `& | << >>` may be negative, or a shift may pass 63.
    OperandRange,
    /// A name or a word has no meaning there.
    UnknownName,
    /// An operand is of another kind than its operator takes.
    KindMismatch,
}

/// What is wrong with an expression, at its place.
#[derive(Clone, Copy, Debug, PartialEq, Eq)]
pub struct Fault {
    pub place: Place,
    pub why: ExprWhy,
}

/// Why an expression has no range, with its place, or want of memory.
#[derive(Clone, Copy, Debug, PartialEq, Eq)]
pub enum RangeFault {
    At { place: Place, why: ExprWhy },
    NoMemory,
}

/// Why an expression wasn't evaluated: it has no value, or want of memory.
#[derive(Clone, Copy, Debug, PartialEq, Eq)]
pub enum EvalRefusal {
    Fails(EvalFault),
    NoMemory,
}
