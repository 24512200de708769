use crate::kinds::Meant;
use mspec_tree::Name;
use node_tree::Node;
use sqlite_items::Items;

/// A name that an expression sees, with what it is and whether it is an optional field.
#[derive(Debug, Drop)]
pub struct MeantName {
    pub name: Name,
    pub meant: Meant,
    pub optional: bool,
}

pub type MeantList = Items<MeantName>;

/// The words that an expression may have: `lengthInBytes` by itself, `lastItem`, and `SUM_BYTES` and `XOR_BYTES`.
#[derive(Clone, Copy, Debug, PartialEq, Eq)]
pub struct Words {
    pub length: bool,
    pub last_item: bool,
    pub sums: bool,
}

/// What an expression sees: names in order, and words.
#[derive(Debug, Drop)]
pub struct Scope {
    pub names: MeantList,
    pub words: Words,
}

/// A name that an expression sees, with its node.
#[derive(Debug, Drop)]
pub struct NodeName {
    pub name: Name,
    pub node: Node,
}

pub type NodeNameList = Items<NodeName>;

/// The names and words that an expression sees, with their values. `position` and `first` are bits: where the expression
/// stands, and the first of the type that has it. `length` is the length of the type's value in bytes; `sum` and `xor` are
/// of the bytes from the type's first bit to the position.
#[derive(Debug, Drop)]
pub struct Env {
    pub names: NodeNameList,
    pub position: u32,
    pub first: u32,
    pub length: u64,
    pub last_item: bool,
    pub sum: u64,
    pub xor: u8,
}
