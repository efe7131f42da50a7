//! Requests that only look, of a client that may write the block.

ghost use Rattle.std.specs.Prelude.{◌≡◌, false, Some, IfOk, IfErr, OnOk};
ghost use Rattle.tsd_model.specs.World.{contents};
ghost use Rattle.tsd_model.specs.Step.{targets_from};
ghost use Rattle.fs_trees.specs.declared.refusal.FsRefusal.TheVariants as no;
ghost use Rattle.fs_laws.specs.Ways.{HoldsWrite};
ghost use Rattle.fs_port.specs.View.{state_of};
ghost use Rattle.fs_port.specs.Calls.{IsValidNow};

use crate::client::Client;
use fs_port::Blocks;
use fs_trees::FsRefusal;
use tsd_model::{BlockList, Data};

#[tactic(none)]
impl Client {
    ghost use Rattle.fs_client.specs.May.{MayWrite, OnlyLooks};

    /// The bytes of a block that it may write; afterwards its session holds that. Only a fault refuses it.
    pub fn look<K: Blocks>(&self, disk: &mut K, block: u32) -> Result<Data, FsRefusal>
        requires unspent { (K.view disk.old).spent ≡ false }
        requires valid { K.told → IsValidNow (K.view disk.old) }
        requires may { K.told → MayWrite self.now (K.view disk.old) block }
        /// promise (with held, only, looks): The bytes of a block; no world is changed, what a session may write stays
        /// so, and where the client may write the block no rule refuses it.
        ensures bytes { K.told → IfOk result (λ bytes. contents (K.view disk.old).world block ≡ Some bytes) }
        ensures held { K.told → OnOk result (HoldsWrite (state_of (K.view disk.new)) self.now.session block) }
        ensures only { K.told → IfErr result (λ e. e ≡ no.Device) }
        ensures looks { OnlyLooks K.told (K.view disk.old) (K.view disk.new) result }
    {
        match self.read(disk, block) {
            Ok(bytes) => Ok(bytes),
            Err(refusal) => Err(refusal),
        }
    }

    /// The least targets of the pairs out of a block that it may write, from a number on, at most 64. Only a fault
    /// refuses it.
    pub fn targets<K: Blocks>(
        &self,
        disk: &mut K,
        source: u32,
        start: u32,
    ) -> Result<BlockList, FsRefusal>
        requires unspent { (K.view disk.old).spent ≡ false }
        requires valid { K.told → IsValidNow (K.view disk.old) }
        requires may { K.told → MayWrite self.now (K.view disk.old) source }
        /// promise (with held, only, looks): The targets of a block; no world is changed, and where the client may
        /// write the block no rule refuses it.
        ensures targets { K.told → IfOk result (λ targets. targets ≡ targets_from (K.view disk.old).world.pairs
            source start) }
        ensures held { K.told → OnOk result (HoldsWrite (state_of (K.view disk.new)) self.now.session source) }
        ensures still { K.told → OnOk result (MayWrite self.now (K.view disk.new) source) }
        ensures only { K.told → IfErr result (λ e. e ≡ no.Device) }
        ensures looks { OnlyLooks K.told (K.view disk.old) (K.view disk.new) result }
    {
        match self.list(disk, source, start) {
            Ok(targets) => Ok(targets),
            Err(refusal) => Err(refusal),
        }
    }
}
