//! What is answered to a request.

ghost use Rattle.std.specs.Prelude.{◌≡◌, ◌≤◌, ◌<◌, ◌+◌, ◌*◌, ◌/◌, ◌^◌, ◌++◌, ◌∷◌, IfOk, OnOk, Some, drop, length, take, true};
ghost use Rattle.std.specs.List.{flat_map};
ghost use Rattle.std.specs.Int.{w16, to_be_bytes};
ghost use Rattle.plc_sim.specs.Devices.{answer_fields, answered, exception, flag_bytes, framed, function_byte, is_inside, is_value, list_size, packed, packed_byte, requested, with_count, word_bytes};

use crate::functions::Function;
use crate::images::Image;
use crate::requests::{is_value, item_count, number_at};
use node_tree::ByteList;
use std::alloc::{AllocError, Global};

/// A request names a value that its function doesn't have.
const ILLEGAL_VALUE: u8 = 3;

/// A request goes past the end of its list.
const ILLEGAL_ADDRESS: u8 = 2;

/// The number of up to eight flags, the first one its lowest bit.
#[tactic(auto, using(crate::proofs::Packing::doubled_fits))]
fn packed_byte(flags: &[bool]) -> u8
    requires { length flags.now ≤ 8 }
    ensures value { result ≡ packed_byte flags.now }
    ensures bound { result < 2 ^ length flags.now }
{
    match flags.split_first() {
        None => 0,
        Some((flag, rest)) => u8::from(*flag) + 2 * packed_byte(rest),
    }
}

/// The first eight flags, and the others.
#[tactic(auto, using(crate::proofs::Packing::all_taken, crate::proofs::Packing::none_left))]
fn split_eight(flags: &[bool]) -> (&[bool], &[bool])
    ensures front { result.0.now ≡ take 8 flags.now }
    ensures rest { result.1.now ≡ drop 8 flags.now }
    ensures few { length result.0.now ≤ 8 }
{
    if flags.len() <= 8 {
        (flags, &[])
    } else {
        flags.split_at(8)
    }
}

/// Adds flags in so many bytes, eight in each.
fn add_packed(to: &mut Vec<u8>, bytes: usize, flags: &[bool]) -> Result<(), AllocError>
    ensures added { OnOk result (to.new.items ≡ to.old.items ++ packed bytes flags.now) }
    ensures count { OnOk result (length to.new.items ≡ length to.old.items + bytes) }
{
    if bytes == 0 {
        return Ok(());
    }
    let (front, rest) = split_eight(flags);
    to.push(packed_byte(front))?;
    add_packed(to, bytes - 1, rest)
}

/// Adds registers, the higher byte of each first.
fn add_words(to: &mut Vec<u8>, words: &[u16]) -> Result<(), AllocError>
    ensures added { OnOk result (to.new.items ≡ to.old.items ++ flat_map (to_be_bytes w16) words.now) }
    ensures count { OnOk result (length to.new.items ≡ length to.old.items + 2 * length words.now) }
{
    match words.split_first() {
        None => Ok(()),
        Some((word, rest)) => {
            to.extend_from_slice(&word.to_be_bytes())?;
            add_words(to, rest)
        }
    }
}

/// Some flags of a list, in bytes.
fn flag_bytes(
    alloc: Global,
    from: usize,
    count: usize,
    flags: &[bool],
) -> Result<Vec<u8>, AllocError>
    requires inside { from + count ≤ length flags.now }
    requires bound { count ≤ 2000 }
    ensures bytes { IfOk result (λ bytes. bytes.items ≡ flag_bytes from count flags.now) }
    ensures count { IfOk result (λ bytes. length bytes.items ≤ 255) }
{
    let mut bytes = Vec::new(alloc);
    add_packed(&mut bytes, (count + 7) / 8, &flags[from..from + count])?;
    Ok(bytes)
}

/// Some registers of a list, in bytes.
fn word_bytes(
    alloc: Global,
    from: usize,
    count: usize,
    words: &[u16],
) -> Result<Vec<u8>, AllocError>
    requires inside { from + count ≤ length words.now }
    requires bound { count ≤ 125 }
    ensures bytes { IfOk result (λ bytes. bytes.items ≡ word_bytes from count words.now) }
    ensures count { IfOk result (λ bytes. length bytes.items ≤ 255) }
{
    let mut bytes = Vec::new(alloc);
    add_words(&mut bytes, &words[from..from + count])?;
    Ok(bytes)
}

/// How many bytes, and the bytes.
fn with_count(alloc: Global, bytes: &[u8]) -> Result<Vec<u8>, AllocError>
    requires { length bytes.now ≤ 255 }
    ensures bytes { IfOk result (λ fields. fields.items ≡ with_count bytes.now) }
    ensures count { IfOk result (λ fields. length fields.items ≤ 256) }
{
    let mut fields = Vec::new(alloc);
    fields.push(bytes.len() as u8)?;
    fields.extend_from_slice(bytes)?;
    Ok(fields)
}

/// How many items the function's list has.
fn list_size(image: &Image, function: Function) -> usize
    ensures { result ≡ list_size image.now function }
{
    match function {
        Function::ReadCoils | Function::WriteCoil | Function::WriteCoils => image.coils.len(),
        Function::ReadDiscrete => image.discrete.len(),
        Function::ReadHolding | Function::WriteRegister | Function::WriteRegisters => {
            image.holding.len()
        }
        Function::ReadInput => image.input.len(),
    }
}

/// Whether all items that are asked for are in the function's list.
fn is_inside(image: &Image, function: Function, frame: &[u8]) -> bool
    requires { 12 ≤ length frame.now }
    ensures { result ≡ is_inside image.now function frame.now }
{
    usize::from(number_at(frame, 8)) + item_count(function, frame) <= list_size(image, function)
}

/// What stands behind the function in the answer to a request with which nothing is wrong.
fn answer_fields(
    alloc: Global,
    image: &Image,
    function: Function,
    frame: &[u8],
) -> Result<Vec<u8>, AllocError>
    requires whole { 12 ≤ length frame.now }
    requires value { is_value function frame.now ≡ true }
    requires inside { is_inside image.now function frame.now ≡ true }
    ensures fields { IfOk result (λ fields. fields.items ≡ answer_fields image.now function frame.now) }
    ensures count { IfOk result (λ fields. length fields.items ≤ 256) }
{
    let from = usize::from(number_at(frame, 8));
    let count = usize::from(number_at(frame, 10));
    match function {
        Function::ReadCoils => {
            with_count(
                alloc,
                &flag_bytes(alloc, from, count, image.coils.as_slice())?,
            )
        }
        Function::ReadDiscrete => {
            with_count(
                alloc,
                &flag_bytes(alloc, from, count, image.discrete.as_slice())?,
            )
        }
        Function::ReadHolding => {
            with_count(
                alloc,
                &word_bytes(alloc, from, count, image.holding.as_slice())?,
            )
        }
        Function::ReadInput => {
            with_count(
                alloc,
                &word_bytes(alloc, from, count, image.input.as_slice())?,
            )
        }
        _ => Vec::from_slice(alloc, &frame[8..12]),
    }
}

/// A frame with the request's reference and unit, and the rest behind the unit.
fn framed(alloc: Global, request: &[u8], rest: &[u8]) -> Result<ByteList, AllocError>
    requires whole { 12 ≤ length request.now }
    requires bound { length rest.now ≤ 257 }
    ensures { IfOk result (λ frame. frame ≡ framed request.now rest.now) }
{
    let mut frame = Vec::with_capacity(alloc, 7 + rest.len())?;
    frame.extend_from_slice(&request[..4])?;
    frame.extend_from_slice(&(1 + rest.len() as u16).to_be_bytes())?;
    frame.push(request[6])?;
    frame.extend_from_slice(rest)?;
    Ok(ByteList::from_vec(frame))
}

/// A refusal, by the exception's number.
fn exception(alloc: Global, frame: &[u8], code: u8) -> Result<ByteList, AllocError>
    requires whole { 12 ≤ length frame.now }
    requires function { function_byte frame.now ≤ 16 }
    ensures { IfOk result (λ answer. answer ≡ exception frame.now code) }
{
    framed(alloc, frame, &[128 + frame[7], code])
}

/// The values, or the confirmation of a write.
fn confirmed(
    alloc: Global,
    image: &Image,
    function: Function,
    frame: &[u8],
) -> Result<ByteList, AllocError>
    requires whole { 12 ≤ length frame.now }
    requires value { is_value function frame.now ≡ true }
    requires inside { is_inside image.now function frame.now ≡ true }
    ensures { IfOk result (λ answer. answer ≡ framed frame.now (function_byte frame.now ∷ answer_fields image.now function frame.now)) }
{
    let fields = answer_fields(alloc, image, function, frame)?;
    let mut rest = Vec::with_capacity(alloc, 1 + fields.len())?;
    rest.push(frame[7])?;
    rest.extend_from_slice(&fields)?;
    framed(alloc, frame, &rest)
}

/// The answer to a request of this function.
pub(crate) fn answered(
    alloc: Global,
    image: &Image,
    function: Function,
    frame: &[u8],
) -> Result<ByteList, AllocError>
    requires request { requested frame.now ≡ Some function }
    requires whole { 12 ≤ length frame.now }
    requires known { function_byte frame.now ≤ 16 }
    ensures { IfOk result (λ answer. answer ≡ answered image.now function frame.now) }
{
    if !is_value(function, frame) {
        exception(alloc, frame, ILLEGAL_VALUE)
    } else if !is_inside(image, function, frame) {
        exception(alloc, frame, ILLEGAL_ADDRESS)
    } else {
        confirmed(alloc, image, function, frame)
    }
}
