use sqlite_items::Items;

/// A name, which contracts see as the list of its bytes.
pub type Name = Items<u8>;

/// A place in a text: a line, and a column in bytes, both from 1.
#[derive(Clone, Copy, Debug, PartialEq, Eq)]
pub struct Place {
    pub line: u32,
    pub column: u32,
}

/// The order of a number's bytes.
#[derive(Clone, Copy, Debug, PartialEq, Eq)]
pub enum ByteOrder {
    Big,
    Little,
}

/// A type that is written by its own word. The number is the width in bits.
#[derive(Clone, Copy, Debug, PartialEq, Eq)]
pub enum Simple {
    Bit,
    Byte,
    Uint(u8),
    Int(u8),
    Float(u8),
}

/// A literal: a number by its sign and size, or a flag.
#[derive(Clone, Copy, Debug, PartialEq, Eq)]
pub enum Lit {
    Num { negative: bool, size: u128 },
    Flag(bool),
}

/// A key of a case. `Any` is written `*`.
#[derive(Debug, Drop)]
pub enum Key {
    Any,
    Lit(Lit),
    Constant(Name),
}

/// An operator between two operands.
#[derive(Clone, Copy, Debug, PartialEq, Eq)]
pub enum Op {
    Or,
    And,
    BitOr,
    BitAnd,
    Eq,
    Ne,
    Lt,
    Le,
    Gt,
    Ge,
    Shl,
    Shr,
    Add,
    Sub,
    Mul,
    Div,
    Rem,
}
