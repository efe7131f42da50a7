//! Why the tables of an image were not loaded.

ghost use Rattle.std.specs.Prelude.{◌≡◌};
ghost use Rattle.image_world.specs.LoadFaults.{of_pointers, of_live, of_counts, of_caps};

use image_layout::ImageFault;
use pointer_table::TableFault;
use std::alloc::AllocError;

/// Why the tables of an image were not loaded.
#[derive(Clone, Copy, Debug, PartialEq, Eq)]
pub enum LoadFault {
    /// No memory was found.
    NoMemory,

    /// A read failed, and the device's count of faults rose.
    Device,

    /// The first test that the tables fail, with what fails it.
    Image(ImageFault),
}

impl From<AllocError> for LoadFault {
    ghost use Rattle.std.specs.Prelude.{◌≡◌};
    ghost use Rattle.image_world.specs.declared.fault.LoadFault.TheVariants as fault;

    ghost from_gives = { λ _ made. made ≡ fault.NoMemory };

    fn from(_error: AllocError) -> LoadFault {
        LoadFault::NoMemory
    }
}

impl From<TableFault> for LoadFault {
    ghost use Rattle.std.specs.Prelude.{◌≡◌};
    ghost use Rattle.image_world.specs.LoadFaults.{of_pointers};

    ghost from_gives = { λ why made. made ≡ of_pointers why };

    fn from(why: TableFault) -> LoadFault {
        match why {
            TableFault::NoMemory => LoadFault::NoMemory,
            TableFault::Device => LoadFault::Device,
            TableFault::Slot {
                slot,
                source,
                target,
            } => LoadFault::Image(ImageFault::Slot {
                slot,
                source,
                target,
            }),
            TableFault::Repeated { source, target } => {
                LoadFault::Image(ImageFault::Repeated { source, target })
            }
        }
    }
}

impl From<block_alloc::LoadFault> for LoadFault {
    ghost use Rattle.std.specs.Prelude.{◌≡◌};
    ghost use Rattle.image_world.specs.LoadFaults.{of_live};

    ghost from_gives = { λ why made. made ≡ of_live why };

    fn from(why: block_alloc::LoadFault) -> LoadFault {
        match why {
            block_alloc::LoadFault::NoMemory => LoadFault::NoMemory,
            block_alloc::LoadFault::Device => LoadFault::Device,
        }
    }
}

impl From<ref_counts::LoadFault> for LoadFault {
    ghost use Rattle.std.specs.Prelude.{◌≡◌};
    ghost use Rattle.image_world.specs.LoadFaults.{of_counts};

    ghost from_gives = { λ why made. made ≡ of_counts why };

    fn from(why: ref_counts::LoadFault) -> LoadFault {
        match why {
            ref_counts::LoadFault::NoMemory => LoadFault::NoMemory,
            ref_counts::LoadFault::Device => LoadFault::Device,
        }
    }
}

impl From<cap_store::LoadFault> for LoadFault {
    ghost use Rattle.std.specs.Prelude.{◌≡◌};
    ghost use Rattle.image_world.specs.LoadFaults.{of_caps};

    ghost from_gives = { λ why made. made ≡ of_caps why };

    fn from(why: cap_store::LoadFault) -> LoadFault {
        match why {
            cap_store::LoadFault::NoMemory => LoadFault::NoMemory,
            cap_store::LoadFault::Device => LoadFault::Device,
        }
    }
}
