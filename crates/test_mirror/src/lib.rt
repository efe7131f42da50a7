//! Tests of the mirror of two images: two stations in memory, a mirror over them with each call failing in turn, and a
//! program that knows only a port, run over a mirror and stopped at every call.
//!
//! They use public calls alone and show what no clause says. The program's promise on each side is proved here as it is
//! for any program over a mirror (`saving`). Nothing stands on this crate.
#![tactic(auto)]

#[cfg(test)]
mod calls;
#[cfg(test)]
mod mirrored;
mod saving;
#[cfg(test)]
mod stops;
