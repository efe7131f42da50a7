// A port behind a reference.
ghost use Rattle.std.specs.Prelude.{◌≡◌, ◌<◌, ◌≤◌, ◌++◌, ℕ, true, length, take, OnOk, OnErr, IfOk};
ghost use Rattle.image_device.specs.Calls.{Appends, Includes, Puts, Rests, Settles, Touches, Uses};
ghost use Rattle.image_device.specs.Counts.{CountsFault};
ghost use Rattle.image_device.specs.Runs.{IsFirm};
ghost use Rattle.image_device.specs.View.{IsLeftInPut};

use image_device::{Device, Failed, Port, WorkDone};

/// A port that is lent. It is the port itself, and each call leaves the reference as it is.
#[derive(Drop)]
pub struct Loan<'a, P: Port> {
    /// The port.
    pub port: &'a mut P,
}

impl<'a, P: Port> Device for Loan<'a, P> {
    ghost told = { P.told };

    ghost view = { λ l. P.view l.port.now };

    ghost sound = { λ l told. P.sound l.port.now told };

    fn read(&mut self, sector: u32, into: &mut [u8; 512]) -> Result<(), Failed>
        ensures bytes { P.told → OnOk result (into.new ≡ (P.view self.old.port.now).reads sector) }
        ensures kept { OnErr result (into.new ≡ into.old) }
        ensures rests { P.told → Rests (P.view self.old.port.now) (P.view self.new.port.now) }
        ensures uses { Uses 0 (P.view self.old.port.now) (P.view self.new.port.now) }
        ensures faults { CountsFault result (P.view self.old.port.now).faults (P.view self.new.port.now).faults }
        ensures same { self.new.port.ghost_name ≡ self.old.port.ghost_name }
    {
        self.port.read(sector, into)
    }

    fn write(&mut self, sector: u32, from: &[u8; 512]) -> Result<(), Failed>
        ensures written { P.told → OnOk result ((P.view self.new.port.now).reads sector ≡ from.now) }
        ensures loose { P.told → OnOk result ((P.view self.new.port.now).loose sector ≡ true) }
        ensures touches { P.told → Touches sector (P.view self.old.port.now) (P.view self.new.port.now) }
        ensures uses { Uses 1 (P.view self.old.port.now) (P.view self.new.port.now) }
        ensures faults { CountsFault result (P.view self.old.port.now).faults (P.view self.new.port.now).faults }
        ensures same { self.new.port.ghost_name ≡ self.old.port.ghost_name }
    {
        self.port.write(sector, from)
    }

    fn sync(&mut self) -> Result<(), Failed>
        ensures firm { P.told → OnOk result (IsFirm (P.view self.new.port.now)) }
        ensures loose { P.told → OnErr result ((P.view self.new.port.now).loose ≡ (P.view self.old.port.now).loose) }
        ensures settles { P.told → Settles (P.view self.old.port.now) (P.view self.new.port.now) }
        ensures uses { Uses 0 (P.view self.old.port.now) (P.view self.new.port.now) }
        ensures faults { CountsFault result (P.view self.old.port.now).faults (P.view self.new.port.now).faults }
        ensures same { self.new.port.ghost_name ≡ self.old.port.ghost_name }
    {
        self.port.sync()
    }

    fn show_work_done(&self, done: WorkDone) {
        self.port.show_work_done(done);
    }
}

impl<'a, P: Port> Port for Loan<'a, P> {
    fn put(&mut self, piece: &[u8]) -> Result<usize, Failed>
        requires { 0 < length piece.now }
        ensures some { IfOk result (λ count. (0 < count) × (count ≤ length piece.now)) }
        ensures sent { P.told → IfOk result (λ count. (P.view self.new.port.now).sent ≡ (P.view self.old.port.now).sent
            ++ take count piece.now) }
        ensures part { P.told → OnErr result ((count : ℕ) × (count < length piece.now)
            × ((P.view self.new.port.now).sent ≡ (P.view self.old.port.now).sent ++ take count piece.now)) }
        ensures appends { P.told → Appends piece.now (P.view self.old.port.now) (P.view self.new.port.now) }
        ensures includes { P.told → OnOk result (Includes (P.view self.old.port.now) (P.view self.new.port.now)
            (IsLeftInPut piece.now (P.view self.old.port.now))) }
        ensures puts { Puts (P.view self.old.port.now) (P.view self.new.port.now) }
        ensures faults { CountsFault result (P.view self.old.port.now).put_faults
            (P.view self.new.port.now).put_faults }
        ensures same { self.new.port.ghost_name ≡ self.old.port.ghost_name }
    {
        self.port.put(piece)
    }
}
