//! What follows of the definitions.

ghost use Rattle.std.specs.Prelude.{◌≡◌, ◌+◌, ◌≤◌, cond, List, length};
ghost use Rattle.image_layout.specs.declared.offset.Patch.{Patch};
ghost use Rattle.image_world.specs.Tables.{Tables};
ghost use Rattle.intent_journal.specs.Records.{JournalRecord};
ghost use Rattle.intent_journal.specs.Ring.{committed, commit_writes, checkpoint_writes};
ghost use Rattle.reclaim.specs.declared.out_step.OutStep.{OutStep};
ghost use Rattle.volume_laws.specs.Graphs.{IsStepNext};
ghost use Rattle.image_world.specs.Debt.{owed};
ghost use Rattle.volume_laws.specs.Steps.{IsStepped};
ghost use Rattle.volume_laws.specs.Writes.{batch_cost};

/// What a commit writes, and what is due then for emptying the ring, is at most what was due and the batch's cost. So
/// the writes of many commits are at most the sum of their costs.
pub fn commits_are_paid_for()
    ensures { (rs : List JournalRecord) (batch : List Patch) → commit_writes rs batch + checkpoint_writes
        (committed rs batch) ≤ checkpoint_writes rs + batch_cost (length batch) }
{}

/// A step of reclamation owes just so much less as it takes away.
pub fn steps_owe_less()
    ensures { (t now : Tables) (s : OutStep) → IsStepNext t s → IsStepped t now s.block s.targets s.freed
        → owed t ≡ owed now + (cond s.freed 1 0 + length s.targets) }
{}
