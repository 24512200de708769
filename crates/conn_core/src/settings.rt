ghost use Rattle.std.specs.Prelude.{◌↔◌, IsTrue};
ghost use Rattle.conn_core.specs.Tables.{IsSettings};

/// How a connection is shared.
#[derive(Clone, Copy, Debug, PartialEq, Eq)]
pub struct Settings {
    /// Requests go out under the references from 1 to this one, which is 1 to 65,535.
    pub references: u16,
    /// How many requests may be sent and live, 1 to 64.
    pub window: u8,
    /// How many leases may be held, 1 to 64.
    pub share: u8,
    /// With how many entries the journal closes the connection, 64 to 262,144.
    pub journal: u32,
    /// How long a lease lasts, 1 to 86,400,000 milliseconds.
    pub lease_ms: u32,
    /// How long a caller waits for a lease, 1 to 86,400,000 milliseconds.
    pub wait_ms: u32,
}

impl Settings {
    /// Whether each setting lies in its range, so that a connection may be made with them.
    pub fn are_in_range(&self) -> bool
        ensures { IsTrue result ↔ IsSettings self.now }
    {
        1 <= self.references
            && (1..=64).contains(&self.window)
            && (1..=64).contains(&self.share)
            && (64..=262_144).contains(&self.journal)
            && (1..=86_400_000).contains(&self.lease_ms)
            && (1..=86_400_000).contains(&self.wait_ms)
    }
}

/// What is fixed for a connection: its wire, and how it is shared.
#[derive(Debug, Drop)]
pub struct Key<W> {
    pub wire: W,
    pub settings: Settings,
}
