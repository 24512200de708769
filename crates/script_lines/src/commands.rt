ghost use Rattle.std.specs.Prelude.{◌≡◌};
ghost use Rattle.script_lines.specs.declared.commands.LineFault.TheVariants.{NoMemory};

use conn_core::Settings;
use node_tree::ByteList;
use std::alloc::AllocError;

/// A call on a request table, as a line of a script makes it. Moments and times are in milliseconds.
#[derive(Debug, Drop)]
pub enum Call {
    AskLease {
        caller: u32,
        now: u64,
    },
    PollLease {
        caller: u32,
        lease: u64,
    },
    Release {
        caller: u32,
        lease: u64,
        now: u64,
    },
    Submit {
        caller: u32,
        lease: u64,
        now: u64,
        timeout_ms: u32,
        payload: ByteList,
    },
    TakeSend,
    Frame {
        bytes: ByteList,
    },
    Cancel {
        caller: u32,
        id: u64,
    },
    Collect {
        caller: u32,
        id: u64,
    },
    Tick {
        now: u64,
    },
    Shutdown {
        caller: u32,
    },
}

/// A line of a script: it makes the table, or calls on it.
#[derive(Debug, Drop)]
pub enum Command {
    Table(Settings),
    Calls(Call),
}

/// Why a line is no command: it is refused, or memory ran out.
#[derive(Clone, Copy, Debug, PartialEq, Eq)]
pub enum LineFault {
    Refused,
    NoMemory,
}

impl From<AllocError> for LineFault {
    ghost from_gives = { λ _ e. e ≡ NoMemory };

    fn from(_error: AllocError) -> LineFault {
        LineFault::NoMemory
    }
}
