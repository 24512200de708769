ghost use Rattle.std.specs.Prelude.{◌≡◌, ◌&&◌, not, count_by};
ghost use Rattle.txn_core.specs.FirstPlaces.{IsPlace};
ghost use Rattle.txn_core.specs.KeptRows.{first_id, row_of, rows_of};
ghost use Rattle.txn_core.specs.RowTables.{any_row, has_id, has_lease, has_reference, is_due, is_live, is_live_and, is_queued, is_row_of, is_sent, is_sent_and};

use crate::phases::Phase;

/// A request as the table keeps it.
#[derive(Clone, Copy, Debug)]
pub(crate) struct KeptRow<E> {
    pub id: u64,
    pub owner: u32,
    pub lease: u64,
    pub reference: u16,
    pub deadline: u64,
    pub phase: Phase<E>,
}

impl<E: Copy> KeptRow<E> {
    pub fn is_queued(&self) -> bool
        ensures { result ≡ is_queued (row_of self.now) }
    {
        matches!(self.phase, Phase::Queued)
    }

    pub fn is_sent(&self) -> bool
        ensures { result ≡ is_sent (row_of self.now) }
    {
        matches!(self.phase, Phase::Sent)
    }

    /// Whether its reference stays out where it ends now: it was sent, and its reply may still come.
    pub fn stays_out(&self, answered: bool) -> bool
        ensures { result ≡ (not answered && is_sent (row_of self.now)) }
    {
        !answered && self.is_sent()
    }

    pub fn is_live(&self) -> bool
        ensures { result ≡ is_live (row_of self.now) }
    {
        !matches!(self.phase, Phase::Ended(_))
    }
}

pub(crate) fn count_sent<E: Copy>(rows: &[KeptRow<E>]) -> usize
    ensures { result ≡ count_by is_sent (rows_of rows.now) }
{
    rows.iter().filter(|row| row.is_sent()).count()
}

/// The place of the first queued row.
pub(crate) fn place_queued<E: Copy>(rows: &[KeptRow<E>]) -> Option<usize>
    ensures { IsPlace is_queued (rows_of rows.now) result }
{
    rows.iter().position(|row| row.is_queued())
}

/// The place of the live row with this id.
pub(crate) fn place_live<E: Copy>(rows: &[KeptRow<E>], id: u64) -> Option<usize>
    ensures { IsPlace (is_live_and (has_id id)) (rows_of rows.now) result }
{
    rows.iter().position(|row| row.is_live() && row.id == id)
}

/// The place of an owner's row.
pub(crate) fn place_of<E: Copy>(rows: &[KeptRow<E>], owner: u32, id: u64) -> Option<usize>
    ensures { IsPlace (is_row_of owner id) (rows_of rows.now) result }
{
    rows.iter()
        .position(|row| row.id == id && row.owner == owner)
}

/// The id of the row that waits for a reply with this reference.
pub(crate) fn first_sent<E: Copy>(rows: &[KeptRow<E>], reference: u16) -> Option<u64>
    ensures { result ≡ first_id (is_sent_and (has_reference reference)) (rows_of rows.now) }
{
    rows.iter()
        .find(|row| row.is_sent() && row.reference == reference)
        .map(|row| row.id)
}

/// The id of the first live row that is due.
pub(crate) fn first_due<E: Copy>(rows: &[KeptRow<E>], now: u64) -> Option<u64>
    ensures { result ≡ first_id (is_live_and (is_due now)) (rows_of rows.now) }
{
    rows.iter()
        .find(|row| row.is_live() && row.deadline <= now)
        .map(|row| row.id)
}

/// The id of a lease's first live row.
pub(crate) fn first_of<E: Copy>(rows: &[KeptRow<E>], lease: u64) -> Option<u64>
    ensures { result ≡ first_id (is_live_and (has_lease lease)) (rows_of rows.now) }
{
    rows.iter()
        .find(|row| row.is_live() && row.lease == lease)
        .map(|row| row.id)
}

/// The id of the first live row.
pub(crate) fn first_live<E: Copy>(rows: &[KeptRow<E>]) -> Option<u64>
    ensures { result ≡ first_id (is_live_and any_row) (rows_of rows.now) }
{
    rows.iter().find(|row| row.is_live()).map(|row| row.id)
}
