ghost use Rattle.std.specs.Prelude.{◌≡◌, IfOk};

use crate::kinds::{Item, PlcValue};
use node_tree::{ByteList, OwnedList};
use std::alloc::{AllocError, Global};

pub type ItemList = OwnedList<Item>;

/// The values of one item.
pub type ValueList = OwnedList<PlcValue>;

/// A list of values per item, or one for a raw ask.
pub type ValueRows = OwnedList<ValueList>;

/// What a caller asks of a device: to read items, to write values to items, or, over a raw wire, to
/// answer these bytes.
#[derive(Debug, Drop)]
pub enum Ask {
    Read(ItemList),
    Write(ItemList, ValueRows),
    Raw(ByteList),
}

impl Ask {
    /// Another ask for the same.
    pub fn copy(&self, alloc: Global) -> Result<Ask, AllocError>
        ensures { IfOk result (λ ask. ask ≡ self.now) }
    {
        match self {
            Ask::Read(items) => {
                let items = OwnedList::from_slice(alloc, items.as_slice())?;
                Ok(Ask::Read(items))
            }
            Ask::Write(items, rows) => {
                let items = OwnedList::from_slice(alloc, items.as_slice())?;
                let rows = copy_rows(alloc, rows.as_slice())?;
                Ok(Ask::Write(items, rows))
            }
            Ask::Raw(bytes) => {
                let bytes = OwnedList::from_slice(alloc, bytes.as_slice())?;
                Ok(Ask::Raw(bytes))
            }
        }
    }
}

fn copy_rows(alloc: Global, rows: &[ValueList]) -> Result<ValueRows, AllocError>
    ensures { IfOk result (λ copy. copy ≡ rows.now) }
{
    let mut copy = ValueRows::new(alloc);
    for row in rows {
        copy.push(OwnedList::from_slice(alloc, row.as_slice())?)?;
    }
    Ok(copy)
}
