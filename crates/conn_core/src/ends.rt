ghost use Rattle.std.specs.Prelude.{◌≡◌, ◌+◌, length};
ghost use Rattle.lease_core.specs.LeaseSteps.{granted_all, held_due_dropped, waiting_due_dropped};
ghost use Rattle.lease_core.specs.LeaseTables.{IsLeaseTable, due_numbers};
ghost use Rattle.txn_core.specs.RowSteps.{ended_all};
ghost use Rattle.txn_core.specs.RowTables.{IsRowTable, any_row, count_where, has_lease, is_due};
ghost use Rattle.conn_core.specs.KeptEnds.{leases_ended};

use lease_core::Leases;
use txn_core::Rows;
use wire_frames::{EndKind, Reason};

/// Ends every live request: it is lost.
pub(crate) fn lose_all(requests: &mut Rows<EndKind>, reason: Reason)
    ensures requests { requests.new ≡ ended_all any_row (EndKind.Lost reason) requests.old }
    ensures table { IsRowTable requests.new }
{
    'live: while let Some(id) = requests.first_live() {
        requests.end(id, false, EndKind::Lost(reason));
    }
}

/// Ends the live requests that are due at a moment, and counts them.
pub(crate) fn expire(requests: &mut Rows<EndKind>, now: u64) -> u32
    ensures requests { requests.new ≡ ended_all (is_due now) EndKind.Expired requests.old }
    ensures count { result ≡ count_where (is_due now) requests.old }
    ensures table { IsRowTable requests.new }
{
    let mut count = 0;
    'live: while let Some(id) = requests.due(now) {
        requests.end(id, false, EndKind::Expired);
        count += 1;
    }
    count
}

/// Ends the live requests of a lease, and counts them.
pub(crate) fn lose_lease(requests: &mut Rows<EndKind>, lease: u64) -> u32
    ensures requests { requests.new ≡ ended_all (has_lease lease) EndKind.LeaseGone requests.old }
    ensures count { result ≡ count_where (has_lease lease) requests.old }
    ensures table { IsRowTable requests.new }
{
    let mut count = 0;
    'live: while let Some(id) = requests.live_of(lease) {
        requests.end(id, false, EndKind::LeaseGone);
        count += 1;
    }
    count
}

/// Drops the held leases that are due at a moment, and ends their live requests. Counts the requests and the leases.
pub(crate) fn drop_held(requests: &mut Rows<EndKind>, leases: &mut Leases, now: u64) -> (u32, u32)
    requires table { IsRowTable requests.old }
    requires lawful { IsLeaseTable leases.old }
    ensures requests { requests.new ≡ leases_ended EndKind.LeaseGone (due_numbers now leases.old.held) requests.old }
    ensures leases { leases.new ≡ held_due_dropped leases.old now }
    ensures rows { result.0 + count_where any_row requests.new ≡ count_where any_row requests.old }
    ensures count { result.1 ≡ length (due_numbers now leases.old.held) }
    ensures kept_table { IsRowTable requests.new }
    ensures lawful { IsLeaseTable leases.new }
{
    let mut rows = 0;
    let mut count = 0;
    'due: while let Some(lease) = leases.due_held(now) {
        rows += lose_lease(requests, lease);
        leases.drop_lease(lease);
        count += 1;
    }
    (rows, count)
}

/// Drops the waiters that are due at a moment, and counts them.
pub(crate) fn drop_waiting(leases: &mut Leases, now: u64) -> u32
    requires { IsLeaseTable leases.old }
    ensures leases { leases.new ≡ waiting_due_dropped leases.old now }
    ensures count { result ≡ length (due_numbers now leases.old.waiting) }
    ensures lawful { IsLeaseTable leases.new }
{
    let mut count = 0;
    'due: while let Some(lease) = leases.due_waiting(now) {
        leases.drop_lease(lease);
        count += 1;
    }
    count
}

/// Grants waiters from a moment on, while there is room.
pub(crate) fn grant_waiters(leases: &mut Leases, now: u64)
    ensures leases { leases.new ≡ granted_all leases.old now }
    ensures lawful { IsLeaseTable leases.new }
{
    'granting: while leases.grant(now).is_some() {}
}
