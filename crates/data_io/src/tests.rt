ghost use Rattle.std.specs.Prelude.{◌≡◌};
ghost use Rattle.data_io.specs.Data.{IsKindOf};

use crate::{DataFault, node_of, values_of};
use node_tree::{Node, NodeList};
use std::alloc::{AllocError, Global};
use std::test::Fail;
use wire_frames::{Area, Item, PlcType, PlcValue, ValueList};

fn raw(bits: u64, width: u8) -> PlcValue
    ensures { result ≡ PlcValue.Raw bits width }
{
    PlcValue::Raw { bits, width }
}

/// A group with this case and a list of this one node.
fn list_of(alloc: Global, case: u16, item: Node) -> Result<Node, AllocError> {
    let mut items = NodeList::new(alloc);
    items.push(item)?;
    let mut entries = NodeList::new(alloc);
    entries.push(Node::List(items))?;
    Ok(Node::Group { case, entries })
}

/// A group with this case and these two nodes.
fn pair_of(alloc: Global, case: u16, first: Node, second: Node) -> Result<Node, AllocError> {
    let mut entries = NodeList::new(alloc);
    entries.push(first)?;
    entries.push(second)?;
    Ok(Node::Group { case, entries })
}

/// The one value that a node has, or why it has none.
fn value_in(alloc: Global, node: &Node) -> Result<Option<PlcValue>, DataFault> {
    let values = values_of(alloc, node)?;
    Ok(match values.as_slice() {
        [value] => Some(*value),
        _ => None,
    })
}

/// The cases of whole numbers, the ends of their ranges, and the numbers past these.
const WHOLE: [(u16, i128, i128, i128, i128); 12] = [
    (3, 0, 255, -1, 256),
    (4, 0, 65535, -1, 65536),
    (5, 0, 4294967295, -1, 4294967296),
    (6, 0, 18446744073709551615, -1, 18446744073709551616),
    (7, -128, 127, -129, 128),
    (8, 0, 255, -1, 256),
    (9, -32768, 32767, -32769, 32768),
    (10, 0, 65535, -1, 65536),
    (11, -2147483648, 2147483647, -2147483649, 2147483648),
    (12, 0, 4294967295, -1, 4294967296),
    (
        13,
        -9223372036854775808,
        9223372036854775807,
        -9223372036854775809,
        9223372036854775808,
    ),
    (14, 0, 18446744073709551615, -1, 18446744073709551616),
];

#[test]
fn whole_numbers_are_read_up_to_the_ends_of_their_types(rt: HostRuntime) -> Result<(), Fail> {
    for (case, low, high, under, over) in WHOLE {
        for n in [low, high] {
            let node = list_of(rt.alloc(), case, Node::Num(n))?;
            let value = value_in(rt.alloc(), &node)?;
            assert_eq!(rt; value, Some(PlcValue::Whole(n)), "case {case}: {n}");
            drop(node);
        }
        for n in [under, over] {
            let node = list_of(rt.alloc(), case, Node::Num(n))?;
            let fault = value_in(rt.alloc(), &node).err();
            assert_eq!(rt; fault, Some(DataFault::Shape), "case {case}: {n}");
            drop(node);
        }
    }
    Ok(())
}

/// Cases, raw bits with their width, and whether they are a floating number of the case.
const RAW: [(u16, u64, u8, bool); 7] = [
    (15, 0x3F80_0000, 32, true),
    (15, 0xFFFF_FFFF, 32, true),
    (15, 0x1_0000_0000, 32, false),
    (15, 0, 64, false),
    (16, 0xFFFF_FFFF_FFFF_FFFF, 64, true),
    (16, 0, 32, false),
    (4, 0, 16, false),
];

#[test]
fn floating_numbers_are_read_as_their_bits(rt: HostRuntime) -> Result<(), Fail> {
    for (case, bits, width, good) in RAW {
        let node = list_of(rt.alloc(), case, Node::Raw { bits, width })?;
        let value = value_in(rt.alloc(), &node).ok().flatten();
        let want = if good { Some(raw(bits, width)) } else { None };
        assert_eq!(rt; value, want, "case {case}: {bits}");
        drop(node);
    }
    Ok(())
}

/// Cases of flags, reserved numbers, and whether they are reserved numbers of the case.
const RESERVED: [(u16, i128, bool); 8] = [
    (1, 0, true),
    (1, 32_767, true),
    (1, 32_768, false),
    (1, -1, false),
    (2, 127, true),
    (2, 128, false),
    (0, 0, false),
    (3, 0, false),
];

#[test]
fn flags_are_read_beside_any_reserved_number(rt: HostRuntime) -> Result<(), Fail> {
    for (case, reserved, good) in RESERVED {
        let node = pair_of(rt.alloc(), case, Node::Num(reserved), Node::Flag(true))?;
        let value = value_in(rt.alloc(), &node).ok().flatten();
        let want = if good {
            Some(PlcValue::Bool(true))
        } else {
            None
        };
        assert_eq!(rt; value, want, "case {case}: {reserved}");
        drop(node);
    }
    Ok(())
}

#[test]
fn an_empty_list_is_a_reading_and_other_shapes_are_none(rt: HostRuntime) -> Result<(), Fail> {
    let mut entries = NodeList::new(rt.alloc());
    entries.push(Node::List(NodeList::new(rt.alloc())))?;
    let empty = Node::Group { case: 3, entries };
    assert!(rt; values_of(rt.alloc(), &empty)?.is_empty());
    drop(empty);
    let turned = pair_of(rt.alloc(), 1, Node::Flag(true), Node::Num(0))?;
    assert_eq!(rt; value_in(rt.alloc(), &turned).err(), Some(DataFault::Shape));
    drop(turned);
    let unset = pair_of(rt.alloc(), 1, Node::Unset, Node::Flag(true))?;
    assert_eq!(rt; value_in(rt.alloc(), &unset).err(), Some(DataFault::Shape));
    drop(unset);
    let absent = Node::Absent;
    assert_eq!(rt; value_in(rt.alloc(), &absent).err(), Some(DataFault::Shape));
    Ok(())
}

/// The node of one value of this type.
fn node_with(
    alloc: Global,
    kind: PlcType,
    registers: bool,
    value: PlcValue,
) -> Result<Node, AllocError>
    requires { IsKindOf kind value }
{
    let item = Item {
        area: Area::HoldingRegister,
        block: 0,
        start: 0,
        bit: 0,
        kind,
        count: 1,
    };
    let mut values = ValueList::new(alloc);
    values.push(value)?;
    node_of(alloc, &item, &values, registers)
}

/// The case, the reserved number and the flag of a node.
fn flag_parts(node: &Node) -> Option<(u16, i128, bool)> {
    match node {
        Node::Group { case, entries } => match entries.as_slice() {
            [Node::Num(n), Node::Flag(flag)] => Some((*case, *n, *flag)),
            _ => None,
        },
        _ => None,
    }
}

#[test]
fn flags_stand_behind_a_reserved_number_of_0(rt: HostRuntime) -> Result<(), Fail> {
    let register = node_with(rt.alloc(), PlcType::Bool, true, PlcValue::Bool(true))?;
    assert_eq!(rt; flag_parts(&register), Some((1, 0, true)));
    let coil = node_with(rt.alloc(), PlcType::Bool, false, PlcValue::Bool(false))?;
    assert_eq!(rt; flag_parts(&coil), Some((2, 0, false)));
    drop(register);
    drop(coil);
    Ok(())
}

#[test]
fn values_come_back_and_a_number_past_its_type_is_written_but_not_read(
    rt: HostRuntime,
) -> Result<(), Fail> {
    let real = node_with(rt.alloc(), PlcType::Real, true, raw(0x4048_F5C3, 32))?;
    assert_eq!(rt; value_in(rt.alloc(), &real)?, Some(raw(0x4048_F5C3, 32)));
    drop(real);
    let int = node_with(rt.alloc(), PlcType::Int, true, PlcValue::Whole(-2))?;
    assert_eq!(rt; value_in(rt.alloc(), &int)?, Some(PlcValue::Whole(-2)));
    drop(int);
    let wide = node_with(rt.alloc(), PlcType::Int, true, PlcValue::Whole(40_000))?;
    assert_eq!(rt; value_in(rt.alloc(), &wide).err(), Some(DataFault::Shape));
    drop(wide);
    Ok(())
}
