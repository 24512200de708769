use crate::words::{Lit, Name, Op, Place, Simple};
use sqlite_items::{Boxed, Items};

pub type ExprBox = Boxed<Expr>;

pub type ExprList = Items<Expr>;

/// An expression. The place of a two-sided, conditional or dotted one is its operator's.
#[cycle(exprs)]
#[derive(Debug, Drop)]
pub struct Expr {
    pub place: Place,
    pub shape: Shape,
}

/// What an expression is, by its outermost form.
#[cycle(exprs)]
#[derive(Debug, Drop)]
pub enum Shape {
    /// A literal.
    Lit(Lit),
    /// `null`, with which an optional field is compared.
    Null,
    /// A field or a parameter.
    Name(Name),
    /// `curPos`, the whole bytes from the type's first bit to the position.
    CurPos,
    /// `lengthInBytes` by itself, the length of the type's value.
    Length,
    /// `lastItem`, whether the value is itself the last item of an array by count.
    LastItem,
    /// `SUM_BYTES`, the sum of the bytes from the type's first bit on.
    SumBytes,
    /// `XOR_BYTES`, their exclusive or.
    XorBytes,
    /// A field of a value, an attribute of an enum value, or an enum's constant.
    Dot(ExprBox, Name),
    /// `.lengthInBytes` of a value.
    LengthOf(ExprBox),
    /// `COUNT`, how many items an array has.
    Count(ExprBox),
    /// `CAST`, a value as one of this case.
    Cast(ExprBox, Name),
    /// `!`
    Not(ExprBox),
    /// `-` before an operand.
    Neg(ExprBox),
    /// An operator between two operands.
    Two(Op, ExprBox, ExprBox),
    /// `condition ? first : second`
    If(ExprBox, ExprBox, ExprBox),
}

/// The type of a field: one with a word of its own, or a definition's with its arguments.
#[derive(Debug, Drop)]
pub enum Ref {
    Plain(Simple),
    Named {
        place: Place,
        name: Name,
        args: ExprList,
    },
}
