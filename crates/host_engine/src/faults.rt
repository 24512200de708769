ghost use Rattle.std.specs.Prelude.{◌≡◌};
ghost use Rattle.host_engine.specs.declared.faults.Cut.TheVariants.{NoMemory};

use link_io::Failed;
use std::alloc::AllocError;

/// Why a run was cut off: its output failed, or memory ran out.
#[derive(Clone, Copy, Debug, PartialEq, Eq)]
pub enum Cut {
    WriteFault,
    NoMemory,
}

impl From<Cut> for u8 {
    ghost use Rattle.host_engine.specs.Statuses.{cut_number};

    ghost from_gives = { λ cut number. number ≡ cut_number cut };

    fn from(cut: Cut) -> u8 {
        match cut {
            Cut::WriteFault => 5,
            Cut::NoMemory => 8,
        }
    }
}

impl From<AllocError> for Cut {
    ghost from_gives = { λ _ e. e ≡ NoMemory };

    fn from(_error: AllocError) -> Cut {
        Cut::NoMemory
    }
}

impl From<Failed> for Cut {
    ghost use Rattle.std.specs.Prelude.{◌≡◌};
    ghost use Rattle.host_engine.specs.declared.faults.Cut.TheVariants.{WriteFault};

    ghost from_gives = { λ _ e. e ≡ WriteFault };

    fn from(_error: Failed) -> Cut {
        Cut::WriteFault
    }
}
