ghost use Rattle.std.specs.Prelude.{◌≡◌, ◌<◌, filter, find, length, map, IfSome, Option};
ghost use Rattle.std.specs.List.{list_any, position};
ghost use Rattle.std.specs.Option.{option_map};
ghost use Rattle.std.specs.Vec.{vec_capacity};
ghost use Rattle.lease_core.specs.KeptLeases.{leases_of};
ghost use Rattle.lease_core.specs.LeaseSteps.{is_other};
ghost use Rattle.lease_core.specs.LeaseTables.{deadline_of, is_due, is_lease_of, number_of};

/// A lease that is held or waited for, until a deadline in milliseconds.
#[derive(Clone, Copy)]
pub(crate) struct KeptLease {
    pub number: u64,
    pub owner: u32,
    pub deadline: u64,
}

/// The moment so many milliseconds after another, or the greatest one.
pub(crate) fn find_deadline(now: u64, milliseconds: u32) -> u64
    ensures { result ≡ deadline_of now milliseconds }
{
    now.saturating_add(u64::from(milliseconds))
}

/// Whether an owner's lease is among these.
pub(crate) fn is_among(leases: &[KeptLease], owner: u32, number: u64) -> bool
    ensures { result ≡ list_any (is_lease_of owner number) (leases_of leases.now) }
{
    leases
        .iter()
        .any(|lease| lease.number == number && lease.owner == owner)
}

/// The place of an owner's lease among these.
pub(crate) fn place_of(leases: &[KeptLease], owner: u32, number: u64) -> Option<usize>
    ensures place { result ≡ position (is_lease_of owner number) (leases_of leases.now) }
    ensures within { IfSome result (λ place. place < length leases.now) }
{
    leases
        .iter()
        .position(|lease| lease.number == number && lease.owner == owner)
}

/// The number of the first of these leases that is due at a moment.
pub(crate) fn first_due(leases: &[KeptLease], now: u64) -> Option<u64>
    ensures { result ≡ option_map number_of (find (is_due now) (leases_of leases.now)) }
{
    let lease = leases.iter().find(|lease| lease.deadline <= now)?;
    Some(lease.number)
}

/// Takes the lease with a number out of these, if it is among them.
pub(crate) fn remove_numbered(leases: &mut Vec<KeptLease>, number: u64)
    ensures items { leases_of leases.new.items ≡ filter (is_other number) (leases_of leases.old.items) }
    ensures capacity { vec_capacity leases.new ≡ vec_capacity leases.old }
{
    leases.retain(|lease| lease.number != number);
}
