//! From values to their node.

ghost use Rattle.std.specs.Prelude.{◌≡◌, ◌≤◌, ◌++◌, ◌∷◌, [], List, length, map, pos, IfOk};
ghost use Rattle.std.specs.List.{All};
ghost use Rattle.data_io.specs.Data.{IsKindOf, data_node, entries_of, value_node};
ghost use Rattle.wire_frames.specs.declared.kinds.PlcType.{PlcType};

use crate::tables::case_number;
use node_tree::{Node, NodeList};
use std::alloc::{AllocError, Global};
use wire_frames::{Item, PlcType, PlcValue, ValueList};

/// The node of a value.
fn node_of_value(value: &PlcValue) -> Node
    ensures { result ≡ value_node value.now }
{
    match *value {
        PlcValue::Bool(flag) => Node::Flag(flag),
        PlcValue::Whole(n) => Node::Num(n),
        PlcValue::Raw { bits, width } => Node::Raw { bits, width },
    }
}

/// The nodes of values.
fn nodes_of(alloc: Global, values: &[PlcValue]) -> Result<NodeList, AllocError>
    ensures { IfOk result (λ nodes. nodes ≡ map value_node values.now) }
{
    let mut nodes = Vec::with_capacity(alloc, values.len())?;
    for value in values {
        nodes.push(node_of_value(value))?;
    }
    Ok(NodeList::from_vec(nodes))
}

/// What stands in a type's case: the reserved number, which is 0, and the flag, or the list.
fn entries_with(alloc: Global, kind: PlcType, nodes: NodeList) -> Result<NodeList, AllocError>
    ensures { IfOk result (λ entries. entries ≡ entries_of (pos 0) kind nodes) }
{
    let mut entries = NodeList::new(alloc);
    match kind {
        PlcType::Bool => {
            entries.push(Node::Num(0))?;
            entries.append(nodes)?;
        }
        _ => entries.push(Node::List(nodes))?,
    }
    Ok(entries)
}

/// The node of `PlcData` for an item with these values, one for each that it counts, of the kind that its type asks for: a flag for
/// BOOL, of which there is one, the raw bits for REAL and LREAL, a whole number for each other type. A number may be out of its
/// type's range. `registers` says whether a flag lies in a register. The reserved number is 0. An `Err` is want of memory.
pub fn node_of(
    alloc: Global,
    item: &Item,
    values: &ValueList,
    registers: bool,
) -> Result<Node, AllocError>
    requires count { length values.now ≡ item.now.count }
    requires flag { item.now.kind ≡ PlcType.Bool → item.now.count ≡ 1 }
    requires kinds { All (IsKindOf item.now.kind) values.now }
    ensures { IfOk result (λ node. node ≡ data_node (pos 0) registers item.now.kind values.now) }
{
    let nodes = nodes_of(alloc, values.as_slice())?;
    let entries = entries_with(alloc, item.kind, nodes)?;
    Ok(Node::Group {
        case: case_number(item.kind, registers),
        entries,
    })
}
