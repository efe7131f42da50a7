//! The least handler that uses the disk.

ghost use Rattle.std.specs.Prelude.{◌≡◌};
ghost use Rattle.test_text.specs.Steady.{steady_rules, steady_work, done_form};

use image_device::{Device, Failed};
use serving::Handler;
use tsd_model::{Reply, Request};

/// Answers every request by Done, and syncs the disk once in each call.
#[derive(Drop)]
pub struct Steady;

impl Handler for Steady {
    ghost rules = { steady_rules };

    ghost work = { steady_work };

    ghost is_ready = { λ h. Unit {0} };

    ghost is_spent = { λ h. Unit {0} };

    ghost holds = { λ h x. Unit {0} };

    ghost state = { λ h x. tt };

    ghost due = { λ h x. 0 };

    ghost is_closed = { λ x. Unit {0} };

    ghost aside = { λ h x. x };

    ghost lender = { λ h. 0 };

    ghost stands_now = { λ h x e. tt };

    ghost given_form = { λ s q r t e. done_form r e };

    fn apply<D: Device>(
        &mut self,
        dev: &mut D,
        _request: &Request,
        into: &mut Reply,
    ) -> Result<(), Failed> {
        *into = Reply::Done;
        dev.sync()
    }

    fn settle_some<D: Device>(&mut self, dev: &mut D) -> Result<bool, Failed> {
        match dev.sync() {
            Ok(()) => Ok(false),
            Err(why) => Err(why),
        }
    }

    fn close<D: Device>(&mut self, dev: &mut D) -> Result<(), Failed> {
        match dev.sync() {
            Ok(()) => Ok(()),
            Err(why) => Err(why),
        }
    }
}
