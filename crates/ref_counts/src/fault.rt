//! Why the counts could not be loaded.

use image_device::Failed;
use std::alloc::AllocError;

/// Why the counts could not be loaded.
#[derive(Clone, Copy, Debug, PartialEq, Eq)]
pub enum LoadFault {
    /// No memory was found.
    NoMemory,

    /// A read failed, and the device's count of faults rose.
    Device,
}

impl From<AllocError> for LoadFault {
    ghost use Rattle.std.specs.Prelude.{◌≡◌};
    ghost use Rattle.ref_counts.specs.declared.fault.LoadFault.TheVariants as fault;

    ghost from_gives = { λ _ made. made ≡ fault.NoMemory };

    fn from(_error: AllocError) -> LoadFault {
        LoadFault::NoMemory
    }
}

impl From<Failed> for LoadFault {
    ghost use Rattle.std.specs.Prelude.{◌≡◌};
    ghost use Rattle.ref_counts.specs.declared.fault.LoadFault.TheVariants as fault;

    ghost from_gives = { λ _ made. made ≡ fault.Device };

    fn from(_failed: Failed) -> LoadFault {
        LoadFault::Device
    }
}
