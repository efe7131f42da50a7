//! What an image keeps of the capabilities of its primary blocks: the capabilities themselves in version 1, their
//! SHA-256 digests in version 2. And the capabilities that a seed gives.
//!
//! What it stands on: `tsd_model` for what a version keeps and which level a shown capability attains, `image_device`
//! for the reads, `image_layout` for the offsets, `rand_chacha` and `rand_core` for the words of a seed, `sha2` for the
//! length of a digest.
//!
//! What it promises: after `load` the store is what the sectors say; `level_shown` is the level of the abstract disk;
//! `patch` is the sector of a block's record as it must read now, so that store and image agree again once it stands
//! there; `fresh_sector` is a sector of a fresh disk, by the capabilities that it is to have. Only `load` takes memory.
#![tactic(auto)]

mod fault;
mod fresh;
mod laws;
mod loading;
mod records;
mod sector;
mod seeds;
mod store;

pub use fault::LoadFault;
pub use fresh::fresh_sector;
pub use laws::{sectors_have_one_store, written_sectors_have_the_store};
pub use seeds::seed_caps;
pub use store::CapStore;
