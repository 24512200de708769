ghost use Rattle.std.specs.Prelude.{◌<◌, IfOk, IsTrue};
ghost use Rattle.conn_core.specs.Requests.{IsDraftOf};

use node_tree::{ByteList, OwnedList, WriteWhy};
use std::alloc::{AllocError, Global};
use wire_frames::{Ask, FrameFault, Wire};

/// A frame twice: as the journal keeps it, and to be handed out.
#[derive(Debug, Drop)]
pub(crate) struct FrameCopies {
    pub written: ByteList,
    pub sent: ByteList,
}

/// The frames of an ask, or the part of it that can't be written.
#[derive(Debug, Drop)]
pub(crate) enum Draft {
    Written(FrameCopies),
    Unwritable { entry: u32, why: WriteWhy },
}

/// Spells an ask. Want of memory ends it at once; that it can't be written waits for its turn among the
/// refusals.
pub(crate) fn write_frames<W: Wire>(
    alloc: Global,
    wire: &W,
    ask: &Ask,
    reference: u16,
) -> Result<Draft, AllocError>
    requires admitted { IsTrue ((W.meaning wire.now).admits ask.now) }
    requires referred { 0 < reference }
    ensures { IfOk result (λ draft. IsDraftOf ((W.meaning wire.now).frame_of ask.now reference) draft) }
{
    let written = match wire.frame(alloc, ask, reference) {
        Ok(written) => written,
        Err(FrameFault::Unwritable { entry, why }) => return Ok(Draft::Unwritable { entry, why }),
        Err(FrameFault::NoMemory) => return Err(AllocError),
    };
    let sent = OwnedList::from_slice(alloc, written.as_slice())?;
    Ok(Draft::Written(FrameCopies { written, sent }))
}
