//! What can be wrong.

use image_device::Failed;
use image_layout::{HeaderFault, ImageFault};
use intent_journal::ReplayFault;
use tsd_model::NoMemory;
use volume::VolumeFault;

/// Why an image wasn't opened.
#[derive(Clone, Copy, Debug, PartialEq, Eq)]
pub enum OpenFault {
    /// The image stands for no world: this is the first test that it fails.
    Image(ImageFault),

    /// A call on the device failed, and its count of faults rose.
    Device,

    /// Memory was short.
    NoMemory,
}

impl From<NoMemory> for OpenFault {
    ghost use Rattle.std.specs.Prelude.{◌≡◌};
    ghost use Rattle.recovery.specs.declared.fault.OpenFault.TheVariants as fault;

    ghost from_gives = { λ _ made. made ≡ fault.NoMemory };

    fn from(_error: NoMemory) -> OpenFault {
        OpenFault::NoMemory
    }
}

impl From<Failed> for OpenFault {
    ghost use Rattle.std.specs.Prelude.{◌≡◌};
    ghost use Rattle.recovery.specs.declared.fault.OpenFault.TheVariants as fault;

    ghost from_gives = { λ _ made. made ≡ fault.Device };

    fn from(_error: Failed) -> OpenFault {
        OpenFault::Device
    }
}

impl From<HeaderFault> for OpenFault {
    ghost use Rattle.std.specs.Prelude.{◌≡◌};
    ghost use Rattle.recovery.specs.Faults.{of_header};

    ghost from_gives = { λ why made. made ≡ of_header why };

    fn from(why: HeaderFault) -> OpenFault {
        OpenFault::Image(ImageFault::Header(why))
    }
}

impl From<ReplayFault> for OpenFault {
    ghost use Rattle.std.specs.Prelude.{◌≡◌};
    ghost use Rattle.recovery.specs.Faults.{of_replay};

    ghost from_gives = { λ why made. made ≡ of_replay why };

    fn from(why: ReplayFault) -> OpenFault {
        match why {
            ReplayFault::BadDescriptor => OpenFault::Image(ImageFault::Descriptor),
            ReplayFault::Device => OpenFault::Device,
        }
    }
}

impl From<VolumeFault> for OpenFault {
    ghost use Rattle.std.specs.Prelude.{◌≡◌};
    ghost use Rattle.recovery.specs.Faults.{of_volume};

    ghost from_gives = { λ why made. made ≡ of_volume why };

    fn from(why: VolumeFault) -> OpenFault {
        match why {
            VolumeFault::NoMemory => OpenFault::NoMemory,
            VolumeFault::Device => OpenFault::Device,
            VolumeFault::Image(fault) => OpenFault::Image(fault),
        }
    }
}
