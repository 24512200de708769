//! Laws of values and their nodes.

ghost use Rattle.std.specs.Prelude.{◌≡◌, ℤ, pos, Bool, List};
ghost use Rattle.std.specs.List.{All};
ghost use Rattle.data_io.specs.Data.{AreData, IsKindOf, IsReading, IsReserved, data_node};
ghost use Rattle.node_tree.specs.declared.nodes.Node.{Node};
ghost use Rattle.wire_frames.specs.declared.kinds.PlcType.{PlcType};
ghost use Rattle.wire_frames.specs.declared.kinds.PlcValue.{PlcValue};

/// Where each value is in its type's range, the node of values is a reading of `PlcData` and has these values, and no others.
pub fn values_come_back()
    ensures { (kind : PlcType) (registers : Bool) (values : List PlcValue) → AreData kind values
        → IsReading (data_node (pos 0) registers kind values) values
        × ((others : List PlcValue) → IsReading (data_node (pos 0) registers kind values) others → others ≡ values) }
{}

/// A reading of `PlcData` is the node of its values, with some reserved number, and they can be written again.
pub fn nodes_come_back()
    ensures { (node : Node) (values : List PlcValue) → IsReading node values
        → (kind : PlcType) × (registers : Bool) × (reserved : ℤ)
        × AreData kind values × All (IsKindOf kind) values × IsReserved registers reserved × (node ≡ data_node reserved registers kind values) }
{}

/// A node has one list of values.
pub fn one_reading()
    ensures { (node : Node) (values others : List PlcValue) → IsReading node values → IsReading node others → values ≡ others }
{}
