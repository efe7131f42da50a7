//! The first of two images, put through the tests of an image before anything is written to the second one.
//!
//! What it stands on: `mirror_device` for two images under one clock, `intent_journal` and `volume` for the tests of an
//! image, `recovery` for what can be wrong with it, `image_layout` for where its gates and its header stand, and the
//! laws of `image_world`.
//!
//! What it promises: [`test_first`] says whether the first image stands for a world, and else the first test that it
//! fails, as an opening does. An open record of the journal is no fault: what its sectors are to hold is read in their
//! place. Nothing is written, and the second image is as it was, with its counts, at each moment.
#![tactic(auto)]

mod first_side;
mod head;
mod settled;
mod testing;

pub use recovery::OpenFault;
pub use testing::test_first;
