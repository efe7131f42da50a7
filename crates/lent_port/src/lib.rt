//! A port that is lent to code that takes a port by value and gives it back.
//!
//! It stands on `image_device` alone. A [`Loan`] is a port behind a reference. What code that knows it as a port alone
//! gives back might be another loan; so a [`Lent`] keeps in its type whose reference it holds, and what comes back is
//! the port that was lent.
#![tactic(auto)]

mod lent;
mod loan;

pub use lent::{Lender, Lent};
pub use loan::Loan;
