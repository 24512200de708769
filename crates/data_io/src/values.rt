//! From a node to the values that it carries.

ghost use Rattle.std.specs.Prelude.{◌≡◌, ◌≤◌, ◌⊎◌, ◌∷◌, [], List, length, map, IfOk, IfSome, IfNone, Ok, Err, IsTrue, ◌↔◌, ◌≢◌, Bool, ℤ};
ghost use Rattle.std.specs.List.{All};
ghost use Rattle.data_io.specs.Data.{IsOf, IsReading, IsReserved, case_of, value_node};
ghost use Rattle.node_tree.specs.declared.nodes.Node.{Node};
ghost use Rattle.wire_frames.specs.declared.kinds.PlcType.{PlcType};
ghost use Rattle.wire_frames.specs.declared.kinds.PlcValue.{PlcValue};

use crate::tables::{byte_width, is_whole, listed_type};
use node_tree::{Node, OwnedList};
use std::alloc::Global;
use wire_frames::{PlcType, PlcValue, ValueList};

/// The most bytes that the values of a reading have.
const MAX_BYTES: usize = 65_535;

/// Why a node has no values: it is no reading of `PlcData`, or memory ran out.
#[derive(Clone, Copy, Debug, PartialEq, Eq)]
pub enum DataFault {
    Shape,
    NoMemory,
}

/// Whether these are the raw bits of a type of floating numbers.
fn is_float(kind: PlcType, bits: u64, width: u8) -> bool
    ensures { IsTrue result ↔ IsOf kind (PlcValue.Raw bits width) }
{
    match kind {
        PlcType::Real => width == 32 && bits <= 0xFFFF_FFFF,
        PlcType::Lreal => width == 64,
        _ => false,
    }
}

/// The value of a type that a node of a list is.
fn value_of(kind: PlcType, node: &Node) -> Option<PlcValue>
    requires { kind ≢ PlcType.Bool }
    ensures some { IfSome result (λ value. IsOf kind value × (node.now ≡ value_node value)) }
    ensures none { IfNone result ((value : PlcValue) → IsOf kind value → node.now ≡ value_node value → ⊥) }
{
    match *node {
        Node::Num(n) if is_whole(kind, n) => Some(PlcValue::Whole(n)),
        Node::Raw { bits, width } if is_float(kind, bits, width) => {
            Some(PlcValue::Raw { bits, width })
        }
        _ => None,
    }
}

/// The values of a list's items.
fn item_values(alloc: Global, kind: PlcType, items: &[Node]) -> Result<ValueList, DataFault>
    requires { kind ≢ PlcType.Bool }
    ensures read { IfOk result (λ values. All (IsOf kind) values × (items.now ≡ map value_node values)) }
    ensures shape { result ≡ Err DataFault.Shape → (values : List PlcValue) → All (IsOf kind) values → items.now ≡ map value_node values → ⊥ }
{
    let mut values = Vec::new(alloc);
    for item in items {
        match value_of(kind, item) {
            Some(value) => match values.push(value) {
                Ok(()) => (),
                Err(_) => return Err(DataFault::NoMemory),
            },
            None => return Err(DataFault::Shape),
        }
    }
    Ok(OwnedList::from_vec(values))
}

/// The values of a case that is a list.
fn list_values(alloc: Global, case: u16, list: &Node) -> Result<ValueList, DataFault>
    ensures read { IfOk result (λ values. IsReading (Node.Group case (list.now ∷ [])) values) }
    ensures shape { result ≡ Err DataFault.Shape → (values : List PlcValue) → IsReading (Node.Group case (list.now ∷ [])) values → ⊥ }
{
    let Some(kind) = listed_type(case) else {
        return Err(DataFault::Shape);
    };
    match list {
        Node::List(items) if items.len() <= MAX_BYTES / byte_width(kind) => {
            item_values(alloc, kind, items.as_slice())
        }
        _ => Err(DataFault::Shape),
    }
}

/// Whether a node is a reserved number of this case of a flag.
fn is_reserved(case: u16, node: &Node) -> bool
    ensures { IsTrue result ↔ ((registers : Bool) × (n : ℤ) × (case_of registers PlcType.Bool ≡ case) × IsReserved registers n × (node.now ≡ Node.Num n)) }
{
    let most = match case {
        1 => 0x7FFF,
        2 => 0x7F,
        _ => return false,
    };
    match *node {
        Node::Num(n) => (0..=most).contains(&n),
        _ => false,
    }
}

/// The value of a case that is a flag.
fn flag_values(
    alloc: Global,
    case: u16,
    reserved: &Node,
    flag: &Node,
) -> Result<ValueList, DataFault>
    ensures read { IfOk result (λ values. IsReading (Node.Group case (reserved.now ∷ flag.now ∷ [])) values) }
    ensures shape { result ≡ Err DataFault.Shape → (values : List PlcValue) → IsReading (Node.Group case (reserved.now ∷ flag.now ∷ [])) values → ⊥ }
{
    match *flag {
        Node::Flag(value) if is_reserved(case, reserved) => {
            let mut values = ValueList::new(alloc);
            match values.push(PlcValue::Bool(value)) {
                Ok(()) => Ok(values),
                Err(_) => Err(DataFault::NoMemory),
            }
        }
        _ => Err(DataFault::Shape),
    }
}

/// The values that a node of `PlcData` carries: a flag, or the items of a list in order, whole numbers or the raw bits of floating ones. A
/// node that is no reading of `PlcData` has none: `Shape`.
pub fn values_of(alloc: Global, node: &Node) -> Result<ValueList, DataFault>
    ensures read { IfOk result (λ values. IsReading node.now values) }
    ensures shape { result ≡ Err DataFault.Shape → (values : List PlcValue) → IsReading node.now values → ⊥ }
{
    let Node::Group { case, entries } = node else {
        return Err(DataFault::Shape);
    };
    match entries.as_slice() {
        [] => Err(DataFault::Shape),
        [list] => list_values(alloc, *case, list),
        [reserved, flag] => flag_values(alloc, *case, reserved, flag),
        [_, _, _, ..] => Err(DataFault::Shape),
    }
}
