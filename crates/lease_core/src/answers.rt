/// The number of a lease, from 1, that is held at once, or waited for with so many waiters before.
#[derive(Clone, Copy, Debug, PartialEq, Eq)]
pub enum LeaseAnswer {
    Granted { lease: u64 },
    Waiting { lease: u64, place: u8 },
}

/// What a lease is to its owner: held, or waited for with so many waiters before.
#[derive(Clone, Copy, Debug, PartialEq, Eq)]
pub enum LeaseState {
    Held,
    Waiting { place: u8 },
}

/// As many wait as may, 64.
#[derive(Clone, Copy, Debug, PartialEq, Eq)]
pub struct QueueFull;
