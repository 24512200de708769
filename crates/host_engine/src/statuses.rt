ghost use Rattle.std.specs.Prelude.{◌≡◌};
ghost use Rattle.host_engine.specs.Statuses.{number_of};

/// What a run that nothing cut off came to.
#[derive(Clone, Copy, Debug, PartialEq, Eq)]
pub enum Status {
    Well,
    /// The file's text isn't that of an accepted description, or of one outside the first form where values are to be read.
    DescriptionRefused,
    WordsRefused,
    FileFault,
    /// The input failed.
    ReadFault,
    ValueRefused,
    /// The input ended inside a value.
    Truncated,
    LineRefused,
    /// The description has no type of the name.
    TypeRefused,
    /// The input has more bytes than are taken into account.
    TooLong,
}

impl From<Status> for u8 {
    ghost from_gives = { λ status number. number ≡ number_of status };

    fn from(status: Status) -> u8 {
        match status {
            Status::Well => 0,
            Status::DescriptionRefused => 1,
            Status::WordsRefused => 2,
            Status::FileFault => 3,
            Status::ReadFault => 4,
            Status::ValueRefused => 6,
            Status::Truncated => 7,
            Status::LineRefused => 10,
            Status::TypeRefused => 12,
            Status::TooLong => 13,
        }
    }
}
