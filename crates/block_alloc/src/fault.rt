//! Why a map was not loaded.

use image_device::Failed;
use std::alloc::AllocError;

/// Why a map was not loaded.
#[derive(Clone, Copy, Debug, PartialEq, Eq)]
pub enum LoadFault {
    /// No memory was found.
    NoMemory,

    /// A read failed, and the device's count of faults rose.
    Device,
}

impl From<AllocError> for LoadFault {
    ghost use Rattle.std.specs.Prelude.{◌≡◌};
    ghost use Rattle.block_alloc.specs.declared.fault.LoadFault.TheVariants.{NoMemory};

    ghost from_gives = { λ _ e. e ≡ NoMemory };

    fn from(_error: AllocError) -> LoadFault {
        LoadFault::NoMemory
    }
}

impl From<Failed> for LoadFault {
    ghost use Rattle.std.specs.Prelude.{◌≡◌};
    ghost use Rattle.block_alloc.specs.declared.fault.LoadFault.TheVariants.{Device as TheDevice};

    ghost from_gives = { λ _ e. e ≡ TheDevice };

    fn from(_error: Failed) -> LoadFault {
        LoadFault::Device
    }
}
