use crate::lists::OwnedList;
use crate::nodes::Node;

/// The bits of a node, from the first to behind the last, counted from the value's first bit.
#[derive(Clone, Copy, Debug, PartialEq, Eq)]
pub struct Span {
    pub from: u32,
    pub to: u32,
}

pub type SpanList = OwnedList<Span>;

/// What was read: the value, how many bits it took, and the bits of each of its nodes in preorder.
#[derive(Debug, Drop)]
pub struct Reading {
    pub node: Node,
    pub bits: u32,
    pub spans: SpanList,
}
