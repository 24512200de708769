use crate::lists::OwnedList;
use sqlite_items::Items;

/// Bytes that contracts see as a list of numbers below 256.
pub type ByteList = OwnedList<u8>;

/// The entries of a node.
pub type NodeList = Items<Node>;

/// A value, as a tree.
#[derive(Debug, Drop)]
pub enum Node {
    /// A number of an integer type.
    Num(i128),
    /// A number of the type `bit`.
    Flag(bool),
    /// A floating number, as its `width` raw bits.
    Raw { bits: u64, width: u8 },
    /// An array of the type `byte`.
    Blob(ByteList),
    /// An entry that writing computes.
    Unset,
    /// An optional field that isn't there.
    Absent,
    /// The items of an array.
    List(NodeList),
    /// A type's fields, one entry per field bracket in order. The chosen case's fields stand at the
    /// switch's place. `case` is 0 without a switch, else the number of the case from 1.
    Group { case: u16, entries: NodeList },
}
