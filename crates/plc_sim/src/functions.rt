//! The functions that the device knows.

ghost use Rattle.std.specs.Prelude.{◌≡◌, ◌≤◌, IsSome};
ghost use Rattle.plc_sim.specs.Devices.{function_numbered};

/// A function of Modbus.
#[derive(Clone, Copy, Debug, PartialEq, Eq)]
pub(crate) enum Function {
    ReadCoils,
    ReadDiscrete,
    ReadHolding,
    ReadInput,
    WriteCoil,
    WriteRegister,
    WriteCoils,
    WriteRegisters,
}

/// The function of this number.
pub(crate) fn function_numbered(number: u8) -> Option<Function>
    ensures value { result ≡ function_numbered number }
    ensures known { IsSome result → number ≤ 16 }
{
    match number {
        1 => Some(Function::ReadCoils),
        2 => Some(Function::ReadDiscrete),
        3 => Some(Function::ReadHolding),
        4 => Some(Function::ReadInput),
        5 => Some(Function::WriteCoil),
        6 => Some(Function::WriteRegister),
        15 => Some(Function::WriteCoils),
        16 => Some(Function::WriteRegisters),
        _ => None,
    }
}
