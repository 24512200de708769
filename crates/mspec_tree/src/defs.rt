use crate::exprs::Ref;
use crate::fields::{Field, FieldList};
use crate::words::{ByteOrder, Lit, Name, Place, Simple};
use sqlite_items::Items;

pub type LitList = Items<Lit>;

pub type ConstantList = Items<Constant>;

pub type ParamList = Items<Param>;

pub type DefList = Items<Def>;

/// A parameter of a definition. Its place is its name's.
#[derive(Debug, Drop)]
pub struct Param {
    pub place: Place,
    pub kind: Ref,
    pub name: Name,
}

/// A constant of an enum, with its attributes. Its place is its name's.
#[derive(Debug, Drop)]
pub struct Constant {
    pub place: Place,
    pub value: Lit,
    pub name: Name,
    pub attrs: LitList,
}

/// What a definition defines.
#[derive(Debug, Drop)]
pub enum DefBody {
    /// A `type`, by its fields in order.
    Plain(FieldList),
    /// A `discriminatedType`, by its fields in order, of which one is a switch.
    Switched(FieldList),
    /// A `dataIo`, by its one field, a switch.
    DataIo(Field),
    /// An `enum`, by the type of its numbers and its constants in order.
    Enum(Simple, ConstantList),
}

/// A definition. `place` is its bracket's, `named` its name's. `order` is the order of bytes of those of its fields that have
/// none of their own and are numbers of whole bytes.
#[derive(Debug, Drop)]
pub struct Def {
    pub place: Place,
    pub named: Place,
    pub name: Name,
    pub params: ParamList,
    pub order: Option<ByteOrder>,
    pub body: DefBody,
}

/// A whole description: its definitions in order.
#[derive(Debug, Drop)]
pub struct Description {
    pub defs: DefList,
}
