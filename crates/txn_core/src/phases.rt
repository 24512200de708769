/// Where a request stands: its frame is still to be written, or was handed out, or it ended.
#[derive(Clone, Copy, Debug, PartialEq, Eq)]
pub enum Phase<E> {
    Queued,
    Sent,
    Ended(E),
}

/// What a reply with some reference is for.
#[derive(Clone, Copy, Debug, PartialEq, Eq)]
pub enum Arrival {
    /// The request with this id, which was sent and hasn't ended.
    Row(u64),
    /// A request that ended before its reply came.
    Late,
    /// No request.
    Stray,
}

/// Why a request wasn't added.
#[derive(Clone, Copy, Debug, PartialEq, Eq)]
pub enum AddRefusal {
    /// As many requests as may be are kept, 1,024, ended ones too.
    Full,
    /// No reference is free.
    NoReference,
    NoMemory,
}

/// Why a request's end wasn't taken.
#[derive(Clone, Copy, Debug, PartialEq, Eq)]
pub enum TakeRefusal {
    /// It hasn't ended.
    Pending,
    /// The owner has no such request.
    NoRequest,
}
