use crate::exprs::{Expr, Ref};
use crate::words::{ByteOrder, Key, Lit, Name, Place, Simple};
use sqlite_items::Items;

pub type NameList = Items<Name>;

pub type KeyList = Items<Key>;

pub type FieldList = Items<Field>;

pub type CaseList = Items<Case>;

/// A field of a type. A reserved field and a switch have the empty name. `place` is the bracket's, and
/// `named` the name's place, or the bracket's where there is no name.
#[cycle(fields)]
#[derive(Debug, Drop)]
pub struct Field {
    pub place: Place,
    pub named: Place,
    pub name: Name,
    pub order: Option<ByteOrder>,
    pub body: Body,
}

/// What stands in a field, by the word that its bracket begins with.
#[cycle(fields)]
#[derive(Debug, Drop)]
pub enum Body {
    /// A value of this type.
    Simple(Ref),
    /// A number, a flag or an enum value by which a switch chooses.
    Discriminator(Ref),
    /// A number that is always this literal.
    Const(Simple, Lit),
    /// A number without a name, written as this literal unless another is given.
    Reserved(Simple, Lit),
    /// A number that writing computes by the expression.
    Implicit(Ref, Expr),
    /// The expression's value, which has no bits.
    Virtual(Ref, Expr),
    /// A value that is there where the expression is true.
    Optional(Ref, Expr),
    /// A number that is the expression's value.
    Checksum(Simple, Expr),
    /// As many numbers as the expression says, written as this literal.
    Padding(Simple, Lit, Expr),
    /// As many items as the expression says.
    CountArray(Ref, Expr),
    /// Items that have as many bytes as the expression says.
    LengthArray(Ref, Expr),
    /// The fields of the first case whose keys are the values of these names.
    Switch(NameList, CaseList),
}

/// A case of a switch: its keys, which stand for the switch's names in order, its name and its fields. `place` is its
/// bracket's, `named` its name's.
#[cycle(fields)]
#[derive(Debug, Drop)]
pub struct Case {
    pub place: Place,
    pub named: Place,
    pub keys: KeyList,
    pub name: Name,
    pub fields: FieldList,
}
