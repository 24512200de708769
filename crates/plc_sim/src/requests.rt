//! Which bytes are a request, and what its fields are.

ghost use Rattle.std.specs.Prelude.{◌≡◌, ◌≤◌, ◌<◌, ◌+◌, IsSome, Some, length, true};
ghost use Rattle.wire_frames.specs.RawFrames.{number_at};
ghost use Rattle.plc_sim.specs.Devices.{function_byte, has_fields, has_header, is_value, item_count, requested};

use crate::functions::{Function, function_numbered};

/// The number of the two bytes from `at` on, the higher one first.
pub(crate) fn number_at(frame: &[u8], at: usize) -> u16
    requires { at + 1 < length frame.now }
    ensures { result ≡ number_at frame.now at }
{
    u16::from_be_bytes([frame[at], frame[at + 1]])
}

/// Whether the header's numbers are those of a request with all its bytes.
fn has_header(frame: &[u8]) -> bool
    ensures value { result ≡ has_header frame.now }
    ensures whole { result ≡ true → 12 ≤ length frame.now }
{
    frame.len() >= 12
        && number_at(frame, 2) == 0
        && usize::from(number_at(frame, 4)) + 6 == frame.len()
}

/// Whether the fields are all of the function's, with nothing behind them.
fn has_fields(function: Function, frame: &[u8]) -> bool
    ensures { result ≡ has_fields function frame.now }
{
    match function {
        Function::WriteCoils | Function::WriteRegisters => {
            frame.len() >= 13 && frame.len() == 13 + usize::from(frame[12])
        }
        _ => frame.len() == 12,
    }
}

/// The function of which bytes are a request.
pub(crate) fn requested(frame: &[u8]) -> Option<Function>
    ensures value { result ≡ requested frame.now }
    ensures whole { IsSome result → 12 ≤ length frame.now }
    ensures known { IsSome result → function_byte frame.now ≤ 16 }
{
    if !has_header(frame) {
        return None;
    }
    let function = function_numbered(frame[7])?;
    if has_fields(function, frame) {
        Some(function)
    } else {
        None
    }
}

/// Whether the quantity is one of the function's, the bytes of values are as many as it needs, and a coil is on or off.
pub(crate) fn is_value(function: Function, frame: &[u8]) -> bool
    requires { requested frame.now ≡ Some function }
    ensures { result ≡ is_value function frame.now }
{
    let quantity = usize::from(number_at(frame, 10));
    match function {
        Function::ReadCoils | Function::ReadDiscrete => 1 <= quantity && quantity <= 2_000,
        Function::ReadHolding | Function::ReadInput => 1 <= quantity && quantity <= 125,
        Function::WriteCoil => quantity == 0xFF00 || quantity == 0,
        Function::WriteRegister => true,
        Function::WriteCoils => {
            1 <= quantity && quantity <= 1_968 && usize::from(frame[12]) == (quantity + 7) / 8
        }
        Function::WriteRegisters => {
            1 <= quantity && quantity <= 123 && usize::from(frame[12]) == 2 * quantity
        }
    }
}

/// How many items from the address on.
pub(crate) fn item_count(function: Function, frame: &[u8]) -> usize
    requires { 12 ≤ length frame.now }
    ensures { result ≡ item_count function frame.now }
{
    match function {
        Function::WriteCoil | Function::WriteRegister => 1,
        _ => usize::from(number_at(frame, 10)),
    }
}
