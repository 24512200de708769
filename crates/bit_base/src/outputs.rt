ghost use Rattle.std.specs.Prelude.{◌≡◌, ◌≤◌, ◌+◌, ◌*◌, ◌/◌, ◌%◌, ◌^◌, ◌<◌, ◌↔◌, Bool, List, [], ◌++◌, length, take, IsOk, IfOk, IfErr, OnOk, OnErr};
ghost use Rattle.node_tree.specs.Bits.{bits_of};
ghost use Rattle.bit_base.specs.Numbers.{spelling};

use crate::numbers::{MOST_BYTES, put_number};
use crate::orders::Order;
use node_tree::ByteList;
use std::alloc::{AllocError, Global};
use std::marker::Model;

/// Bits that grow at their end, number by number. Contracts see the list of the bits. The last byte may have
/// bits behind them, which the next number takes.
#[derive(Debug, Drop)]
pub struct BitOut {
    bytes: Vec<u8>,
    bits: u32,
}

impl Model for BitOut {
    ghost Value = { List Bool };

    ghost view = { λ out. take out.bits (bits_of out.bytes.items) };

    ghost invariant = { λ out. length out.bytes.items ≡ (out.bits + 7) / 8 };
}

impl BitOut {
    /// The output without bits. It takes no memory.
    pub fn new(alloc: Global) -> BitOut
        ensures { result ≡ [] }
    {
        BitOut {
            bytes: Vec::new(alloc),
            bits: 0,
        }
    }

    /// How many bits were put.
    pub fn bits(&self) -> u32
        ensures { result ≡ length self.now }
    {
        self.bits
    }

    /// Adds the bits that spell the value at the end. An `Err` is want of memory and changes nothing.
    pub fn put(&mut self, value: u64, width: u8, order: Order) -> Result<(), AllocError>
        requires some { 1 ≤ width }
        requires width { width ≤ 64 }
        requires fits { value < 2 ^ width }
        requires groups { order ≡ Order.Little → width % 8 ≡ 0 }
        requires size { length self.old + width ≤ 8 * MOST_BYTES }
        ensures ok { OnOk result (self.new ≡ self.old ++ spelling order width value) }
        ensures longer { OnOk result (length self.new ≡ length self.old + width) }
        ensures err { OnErr result (self.new ≡ self.old) }
    {
        let end = self.bits + u32::from(width);
        self.bytes.resize(end.div_ceil(8) as usize, 0)?;
        put_number(&mut self.bytes, self.bits, width, order, value);
        self.bits = end;
        Ok(())
    }

    /// The bytes whose bits were put, or the output itself where its bits are no whole bytes. It takes no memory.
    pub fn into_bytes(self) -> Result<ByteList, BitOut>
        ensures whole { IsOk result ↔ (length self % 8 ≡ 0) }
        ensures ok { IfOk result (λ bytes. bits_of bytes ≡ self) }
        ensures err { IfErr result (λ out. out ≡ self) }
    {
        if self.bits % 8 != 0 {
            return Err(self);
        }
        let BitOut { bytes, .. } = self;
        Ok(ByteList::from_vec(bytes))
    }
}
