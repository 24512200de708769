/// The types of values that a controller keeps: elementary data types of IEC 61131-3, by their names there.
#[derive(Clone, Copy, Debug, PartialEq, Eq)]
pub enum PlcType {
    Bool,
    Byte,
    Word,
    Dword,
    Lword,
    Sint,
    Usint,
    Int,
    Uint,
    Dint,
    Udint,
    Lint,
    Ulint,
    Real,
    Lreal,
}

/// Where in a controller values lie: the four primary tables of the MODBUS Application Protocol, and the inputs, outputs, flags
/// and data blocks of an S7 controller.
#[derive(Clone, Copy, Debug, PartialEq, Eq)]
pub enum Area {
    Coil,
    DiscreteInput,
    InputRegister,
    HoldingRegister,
    S7Input,
    S7Output,
    S7Flag,
    S7Block,
}

/// `count` values of one type that lie one after another from `start` on. Of Modbus areas `start` counts coils, inputs or
/// registers from 0; of S7 areas it counts bytes from 0, `bit` is a bit of that byte, and `block` the number of a data
/// block. `block` and `bit` are 0 where the area has none.
#[derive(Clone, Copy, Debug, PartialEq, Eq)]
pub struct Item {
    pub area: Area,
    pub block: u16,
    pub start: u16,
    pub bit: u8,
    pub kind: PlcType,
    pub count: u16,
}

/// A value of an item: a flag, a whole number, or a floating number as its `width` raw bits.
#[derive(Clone, Copy, Debug, PartialEq, Eq)]
pub enum PlcValue {
    Bool(bool),
    Whole(i128),
    Raw { bits: u64, width: u8 },
}
