ghost use Rattle.node_tree.specs.declared.faults.ReadFault.TheVariants.{NoMemory as ReadNoMemory};
ghost use Rattle.node_tree.specs.declared.faults.WriteFault.TheVariants.{NoMemory as WriteNoMemory};
ghost use Rattle.std.specs.Prelude.{◌≡◌};

use std::alloc::{AllocError, AllocFailed};

/// Why an expression has no value.
#[derive(Clone, Copy, Debug, PartialEq, Eq)]
pub enum EvalFault {
    /// It needs an optional field that isn't there.
    NullAccess,
    /// It takes a value as one of a case that it isn't.
    CastFails,
    /// It needs an attribute of a number that no constant of the enum has.
    EnumAttr,
}

/// Why bits aren't a value of the type.
#[derive(Clone, Copy, Debug, PartialEq, Eq)]
pub enum ReadWhy {
    /// A constant field has another number.
    ConstMismatch,
    /// No case of a switch has these keys.
    NoCase,
    /// A count or a length is outside 0 to 65,535.
    CountRange,
    /// An item ends past the length of its array.
    LengthOverrun,
    /// A value or an item has no bits.
    ZeroItem,
    /// A number is outside its type.
    ValueRange,
    /// A checksum isn't the one of the bytes.
    ChecksumMismatch,
    /// The same as in [`EvalFault`], and so are the next two.
    NullAccess,
    CastFails,
    EnumAttr,
    /// Types stand in one another deeper than 32.
    TooDeep,
    /// A number would end past bit 524,280 (65,535 bytes), or the value has too many nodes.
    TooLong,
}

/// Why nothing was read: bits are missing, the bits from `bit` on, counted from the value's first bit, aren't of the type, or
/// want of memory.
#[derive(Clone, Copy, Debug, PartialEq, Eq)]
pub enum ReadFault {
    Short,
    Bad { bit: u32, why: ReadWhy },
    NoMemory,
}

/// Why a node can't be written.
#[derive(Clone, Copy, Debug, PartialEq, Eq)]
pub enum WriteWhy {
    /// A number that the description computes is given and is another.
    LocalDisagrees,
    /// A list has another count or length than the description says, or a field is there that isn't to be, or the reverse.
    CountDisagrees,
    /// The case is another than the keys choose.
    CaseDisagrees,
    /// A number is outside its type.
    ValueRange,
    /// A node has another form than its field.
    Shape,
    /// An item has no bits.
    ZeroItem,
    /// An expression has no value.
    Eval(EvalFault),
    /// The value doesn't end on a byte.
    Unaligned,
    /// The value has too many bits or nodes.
    TooLong,
    /// Types stand in one another deeper than 32.
    TooDeep,
}

/// Why nothing was written: the node with the number `entry` in preorder, from 0, or want of memory.
#[derive(Clone, Copy, Debug, PartialEq, Eq)]
pub enum WriteFault {
    At { entry: u32, why: WriteWhy },
    NoMemory,
}

impl From<AllocError> for ReadFault {
    ghost from_gives = { λ _ e. e ≡ ReadNoMemory };

    fn from(_error: AllocError) -> ReadFault {
        ReadFault::NoMemory
    }
}

impl<T: Drop> From<AllocFailed<T>> for ReadFault {
    ghost from_gives = { λ _ e. e ≡ ReadNoMemory };

    fn from(_error: AllocFailed<T>) -> ReadFault {
        ReadFault::NoMemory
    }
}

impl From<AllocError> for WriteFault {
    ghost from_gives = { λ _ e. e ≡ WriteNoMemory };

    fn from(_error: AllocError) -> WriteFault {
        WriteFault::NoMemory
    }
}
