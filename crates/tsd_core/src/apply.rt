//! One request.

ghost use Rattle.std.specs.Prelude.{◌≡◌, ◌+◌, ◌≤◌, ◌||◌, true, false, Ok, IsOk, OnOk, OnErr, IfOk};
ghost use Rattle.std.specs.Prelude.{IfSome};
ghost use Rattle.image_device.specs.Counts.{CountsFault};
ghost use Rattle.tsd_model.specs.ReplyForm.{HasForm, is_refusal};
ghost use Rattle.tsd_model.specs.declared.replies.Reply.TheVariants as reply;
ghost use Rattle.disk_laws.specs.Reclaiming.{is_sweep};
ghost use Rattle.tsd_model.specs.Run.{IsAnswer};
ghost use Rattle.volume.specs.Sweeping.{sweep_cost};
ghost use Rattle.volume_laws.specs.Moments.{LeavesEither};
ghost use Rattle.volume_laws.specs.Writes.{due, zeroed_cost, Works};
ghost use Rattle.tsd_core.specs.Core.{IsCoreReady, IsCoreAt, state_on, told_world};
ghost use Rattle.tsd_core.specs.Journal.{bytes_given, waits, most_homes, owed_then, makes_blocks, count_of, HasGrown};
ghost use Rattle.tsd_core.specs.Seen.{writes_nothing};
ghost use Rattle.volume_laws.specs.Data.{KeepsData};
ghost use Rattle.volume_laws.specs.Rings.{CommitsOnce};
ghost use Rattle.image_device.specs.Calls.{Rests};
ghost use Rattle.image_device.specs.Runs.{LeavesPart};
ghost use Rattle.image_world.specs.Behind.{behind};
ghost use Rattle.image_world.specs.Debt.{owed};
ghost use Rattle.tsd_core.specs.Work.{made_in, cost_in, write_limit, LeavesDebt, SameSize};
ghost use Rattle.tsd_core.specs.Applying.{IsToldAnswer, told_verdict, asks_nothing, next_world, IsApplied};
ghost use Rattle.tsd_core.specs.Carrying.{left_in};

use crate::disk::Core;
use crate::outcome::{answered, refused};
use crate::told::Told;
use image_device::{Device, Failed};
use place_policy::Placement;
use tsd_model::{Reply, Request};

impl Core {
    /// Applies a request: the step of the disk by its rules. A begin that no rule refuses may find no memory; no other
    /// request takes any. `Failed` comes only where the device's count of faults rose; the core is spent then, and
    /// nothing in it is used again.
    #[inline(always)]
    pub fn apply<D: Device>(
        &mut self,
        dev: &mut D,
        placement: &Placement,
        request: &Request,
    ) -> Result<Reply, Failed>
        requires ready { IsCoreReady self.old }
        requires at { D.told → IsCoreAt self.old (D.view dev.old) }
        ensures ready { OnOk result (IsCoreReady self.new) }
        ensures at { D.told → OnOk result (IsCoreAt self.new (D.view dev.new)) }
        /// promise: Every reply has the form that lines and frames can send.
        ensures form { IfOk result HasForm }
        /// promise (with told): **The reply is the abstract disk's, and so is the state after, world and sessions**; a
        /// `Begin` that no rule refuses may find no memory, with nothing changed.
        ensures given { D.told → IfOk result (λ r. IsAnswer placement.now.kind
            (state_on self.old (D.view dev.old).reads) request.now r (state_on self.new (D.view dev.new).reads)) }

        // What memory tells of the answer holds for every device.
        ensures told { IfOk result (λ r. IsToldAnswer placement.now.kind self.old request.now r self.new) }

        // What a rule refuses is answered so, and what asks nothing of the device is answered, by every device.
        /// promise (with answered): What a rule refuses is answered by that rule, and `Begin`, `End`, `GetFree` and
        /// `List` are answered, also over a device whose calls fail.
        ensures refusal { IfSome (told_verdict self.old request.now) (λ rule. result ≡ Ok (reply.Refused rule)) }
        ensures answered { asks_nothing request.now ≡ true → IsOk result }

        // A refusal changes nothing, and asks nothing of the device.
        /// promise (with asks_nothing): A request that is refused, by a rule or for want of memory, changes nothing and
        /// makes no call of the device; nor do `Begin`, `End`, `GetFree` and `List` make one.
        ensures refused { IfOk result (λ r. is_refusal r ≡ true → self.new ≡ self.old) }
        ensures asks_nothing { IfOk result (λ r. (is_refusal r || asks_nothing request.now) ≡ true
            → dev.new ≡ dev.old) }

        // A read, a list, a count, and an open or a close of a session write nothing. The data of all blocks but the
        // one that is written and new ones stays.
        /// promise: A `Read`, `List`, `GetFree`, `Begin` or `End` leaves the device's reads as they were.
        ensures rests { D.told → writes_nothing request.now ≡ true → Rests (D.view dev.old) (D.view dev.new) }
        /// promise: The data of all blocks but the one that is written and new ones stays, of free ones too, in the end
        /// and in each image that a crash leaves.
        ensures data_kept { D.told → KeepsData self.old.volume.tables.geometry (bytes_given placement.now.kind
            (told_world self.old) request.now) (D.view dev.old) (D.view dev.new) result }

        // What lies behind the image stays, in each image that a crash leaves.
        /// promise: What lies after the image stays, in the end and in each image that a crash leaves, whatever is
        /// asked and answered.
        ensures behind { D.told → LeavesPart (behind self.old.volume.tables.geometry) (D.view dev.old)
            (D.view dev.new) }

        // Where it needn't wait, it commits one batch and writes nothing else. What is owed then is said exactly, and
        // of new blocks when the journal is emptied for them.
        /// promise (with owes): A request that needn't wait commits at most one batch, after the records that stay;
        /// they are put in place first only where they leave no room for it, and nothing else is written. What is left
        /// to be reclaimed then is said exactly.
        ensures once { waits self.old.volume request.now ≡ false → CommitsOnce
            (most_homes self.old.volume.tables.geometry request.now) self.old.volume self.new.volume (D.view dev.old)
            (D.view dev.new) result }
        ensures owes { IfOk result (λ r. is_refusal r ≡ false → owed self.new.volume.tables ≡ owed_then
            self.old.volume request.now) }
        /// promise: For new blocks the journal is emptied only where it holds a sector of theirs, or has no room.
        ensures grown { makes_blocks request.now ≡ true → IfOk result (λ r. is_refusal r ≡ false → HasGrown
            placement.now.kind request.now self.old.volume self.new.volume) }

        ensures size { SameSize self.old self.new }
        ensures spent { OnErr result (self.new.volume.is_spent ≡ true) }
        ensures sent { D.told → (D.view dev.new).sent ≡ (D.view dev.old).sent }

        // A crash at any moment leaves the world before or the world after.
        /// promise (with sent): Every image that a crash at any moment may leave stands for the world before or for
        /// that of the step; nothing is sent.
        ensures any_moment { D.told → LeavesEither (D.view dev.old) (D.view dev.new) (next_world placement.now.kind
            (state_on self.old (D.view dev.old).reads) request.now) }

        ensures debt { D.told → is_sweep request.now ≡ false → LeavesDebt (D.view dev.old) (D.view dev.new)
            (made_in (state_on self.old (D.view dev.old).reads) request.now) }
        /// promise (with most, debt): Writes and what is to be reclaimed, in a form that adds up over a run.
        ensures paid { D.told → is_sweep request.now ≡ false
            → OnOk result ((D.view dev.new).writes + due self.new.volume ≤ (D.view dev.old).writes + due
            self.old.volume + cost_in (state_on self.old (D.view dev.old).reads) request.now) }
        ensures most { D.told → is_sweep request.now ≡ false → (D.view dev.new).writes ≤ (D.view dev.old).writes
            + due self.old.volume + cost_in (state_on self.old (D.view dev.old).reads) request.now }
        /// promise: At most 130 writes for a `Delete`; at most 600 for another request but a sweep, and 12 for each
        /// block and pair that waits at an allocation or a `Create`.
        ensures limit { is_sweep request.now ≡ false → (D.view dev.new).writes ≤ (D.view dev.old).writes +
            write_limit self.old.volume request.now }

        // New blocks cost by their number, beside what was due.
        /// promise (with new_most): New blocks: at most each of their sectors once, and 6 for each and 3, beside what
        /// was due.
        ensures new_paid { makes_blocks request.now ≡ true
            → OnOk result ((D.view dev.new).writes + due self.new.volume ≤ (D.view dev.old).writes + due
            self.old.volume + zeroed_cost self.old.volume.tables.geometry (count_of request.now)) }
        ensures new_most { makes_blocks request.now ≡ true → (D.view dev.new).writes ≤ (D.view dev.old).writes
            + due self.old.volume + zeroed_cost self.old.volume.tables.geometry (count_of request.now) }

        // A sweep writes by what it takes away and what was due: at most 7 times for each block and pair that goes,
        // and 10 times for its flag.
        ensures sweep_paid { is_sweep request.now ≡ true
            → OnOk result ((D.view dev.new).writes + due self.new.volume ≤ (D.view dev.old).writes + due
            self.old.volume + sweep_cost (told_world self.old)) }
        /// promise (with sweep_paid): A sweep writes at most 7 times for each block and pair that it takes away and 10
        /// times for its flag, beside what was due.
        ensures swept { is_sweep request.now ≡ true → (D.view dev.new).writes ≤ (D.view dev.old).writes
            + due self.old.volume + sweep_cost (told_world self.old) }

        ensures works { Works (D.view dev.old) (D.view dev.new) }
        /// promise (with spent): `Failed` comes only where the count rose, and the core is spent then; Ok leaves the
        /// count.
        ensures faults { CountsFault result (D.view dev.old).faults (D.view dev.new).faults }
    {
        self.outcome_of(dev, placement, request)
    }

    /// What `apply` answers. It is made where it is wanted, so that no room for it is cleared.
    #[inline(always)]
    fn outcome_of<D: Device>(
        &mut self,
        dev: &mut D,
        placement: &Placement,
        request: &Request,
    ) -> Result<Reply, Failed>
        requires ready { IsCoreReady self.old }
        requires at { D.told → IsCoreAt self.old (D.view dev.old) }
        ensures applied { IsApplied D.told placement.now.kind request.now self.old self.new (D.view dev.old)
            (D.view dev.new) result }
        ensures asks_nothing { IfOk result (λ r. (is_refusal r || asks_nothing request.now) ≡ true
            → dev.new ≡ dev.old) }
    {
        let mut reply = Reply::Done;
        let outcome = self.apply_into(dev, placement, request, &mut reply);
        answered(outcome, reply)
    }

    /// Applies a request, as `apply` does, and puts its reply where the caller has a room for it. All of that room is
    /// written, so it needn't be cleared before, and one room serves for any number of requests. After `Failed` what
    /// stands there is no reply.
    #[inline(never)]
    pub fn apply_into<D: Device>(
        &mut self,
        dev: &mut D,
        placement: &Placement,
        request: &Request,
        into: &mut Reply,
    ) -> Result<(), Failed>
        requires ready { IsCoreReady self.old }
        requires at { D.told → IsCoreAt self.old (D.view dev.old) }
        /// promise (with asks_nothing): All that `apply` promises of the reply that it returns holds of the one that is
        /// left in the room, and of the core and the device beside it.
        ensures applied { IsApplied D.told placement.now.kind request.now self.old self.new (D.view dev.old)
            (D.view dev.new) (left_in result into.new) }
        ensures asks_nothing { IfOk (left_in result into.new)
            (λ r. (is_refusal r || asks_nothing request.now) ≡ true → dev.new ≡ dev.old) }
    {
        self.check();
        match self.grants.verdict(&Told::of(&self.volume), request) {
            Err(rule) => refused(rule, into),
            Ok(granted) => {
                self.raise(request, &granted);
                self.carry_out(dev, placement, request, into)
            }
        }
    }
}
