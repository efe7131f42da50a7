//! A run of the shell from a core that was opened.

ghost use Rattle.std.specs.Prelude.{◌≡◌, ◌≤◌, [], length};
ghost use Rattle.tsd_model.specs.Sessions.{no_sessions, sessions_max};
ghost use Rattle.tsd_model.specs.declared.requests.Level.TheVariants as level;
ghost use Rattle.gathered_tasks.specs.Rooms.{IsFree};
ghost use Rattle.image_device.specs.Runs.{LeavesPart};
ghost use Rattle.image_world.specs.Behind.{behind};
ghost use Rattle.image_world.specs.Stands.{world_of};
ghost use Rattle.tsd_core.specs.Core.{IsCoreReady, sessions_of, told_world};
ghost use Rattle.serving.specs.Faults.{TellsFaults};
ghost use Rattle.serving.specs.Prompt.{IsOfPort, mark};
ghost use Rattle.serving.specs.Ran.{EndsOnce, moments, taking};
ghost use Rattle.shell_server.specs.Kept.{AreReady};
ghost use Rattle.shell_server.specs.Shell.{unmounted};
ghost use Rattle.image_shell.specs.Served.{IsNotServed, IsOpeningAlone, IsPromptShell, level_at};
ghost use Rattle.image_shell.specs.FromCore.{IsAdmitted, IsAtStart, IsMounted, IsSessionBegun, RanFrom};
ghost use Rattle.image_shell.specs.FromCore.{is_below_write, is_device};

use core_blocks::{CoreBlocks, Placing};
use fs_port::{Files, FsRefusal};
use fs_walks::Walks;
use gathered_tasks::AskRoom;
use image_device::{Device, Port, Source};
use serving::{INPUT_MAX, Protocol};
use shell_server::{Started, TreeLayout, serve_shell};
use shell_text::FileAsk;
use tsd_core::Core;
use tsd_model::{Cap, Level, Reply, Request, Shown};
use tsd_words::Status;

/// The session as which the shell asks: the only one.
pub(crate) const SESSION: u32 = 1;

/// Tests the level at the root, opens a session, mounts the tree, and serves.
pub fn serve_opened<
    F: Walks,
    L: Placing,
    K: Started,
    Y: TreeLayout,
    M: Protocol<Request = FileAsk>,
    S: Source,
    P: Port,
>(
    files: &mut F,
    root: u32,
    cap: &Cap,
    core: &mut Core,
    placement: &L,
    room: &mut AskRoom,
    protocol: &mut M,
    source: &mut S,
    port: &mut P,
    limit: u64,
) -> Status
    requires few { limit ≤ INPUT_MAX }
    requires ready { IsCoreReady core.old }
    requires none { core.old.grants.sessions ≡ no_sessions }
    requires at { P.told → IsAtStart K.start core.old (P.view port.old) }
    requires room { IsFree room.old }
    requires fresh { M.was_fed [] protocol.old }
    requires files { F.view files.old ≡ unmounted Y.layout root cap.now }
    ensures allowed { P.told → IsAdmitted root cap.now K.start result }
    ensures ran { RanFrom result (F.view files.old) M.spelling limit
        (taking S.told S.taken S.left_bytes S.ended source.old source.new) K.start
        (moments P.told P.view port.old port.new) }
    ensures prompt { P.told → ¬ IsNotServed result → IsPromptShell result (F.view files.old) (IsOfPort P.view)
        M.spelling limit K.start (taking S.told S.taken S.left_bytes S.ended source.old source.new)
        (mark (P.view port.old)) (mark (P.view port.new)) }
    // Where no ask was served and the device didn't fail, nothing was written.
    ensures idle { IsOpeningAlone result → (P.view port.new).writes ≡ (P.view port.old).writes }
    // However it ended, a crash at any moment leaves what lies behind the image as it was.
    ensures behind { P.told → LeavesPart (behind (told_world core.old).geometry) (P.view port.old) (P.view port.new) }
    ensures once { EndsOnce (S.ends source.old) (S.ends source.new) }
    ensures faults { TellsFaults result (S.faults source.old) (S.faults source.new) (P.view port.old)
        (P.view port.new) }
{
    let attained = root_level(core, root, cap);
    if is_below_write(&attained) {
        return Status::RootDenied(attained);
    }
    match begin_session(core, placement, port, SESSION) {
        Ok(()) => {
            let mounted = mount_on::<F, P, L, K>(files, core, placement, port);
            if is_device(&mounted) {
                return Status::DeviceFault;
            }
            serve_shell::<F, L, K, M, S, P>(
                files, core, placement, room, protocol, source, port, limit,
            )
        }
        Err(why) => why,
    }
}

/// What a capability attains at a root: nothing where that isn't primary.
pub fn root_level(core: &Core, root: u32, cap: &Cap) -> Level
    ensures { result ≡ level_at (told_world core.now) root cap.now }
{
    let geometry = core.geometry();
    if root < geometry.primaries {
        return core.level_shown(root, &Shown::Key(*cap));
    }
    Level::Bare
}

/// Whether it isn't write.
pub fn is_below_write(attained: &Level) -> bool
    ensures { result ≡ is_below_write attained.now }
{
    !matches!(attained, Level::Write)
}

/// Opens a session.
pub fn begin_session<D: Device, L: Placing>(
    core: &mut Core,
    placement: &L,
    dev: &mut D,
    session: u32,
) -> Result<(), Status>
    requires some { 1 ≤ session }
    requires few { session ≤ sessions_max }
    requires all { length (sessions_of core.old) ≡ sessions_max }
    requires ready { IsCoreReady core.old }
    requires at { D.told → IsAtStart (world_of (D.view dev.old).reads) core.old (D.view dev.old) }
    ensures { IsSessionBegun D.told session core.old core.new (D.view dev.old) (D.view dev.new) result }
{
    match placement.apply(core, dev, &Request::Begin { session }) {
        Ok(Reply::Done) => Ok(()),
        Ok(_) => Err(Status::NoMemory),
        Err(_) => Err(Status::DeviceFault),
    }
}

/// Mounts the tree under the root, where one is there.
pub fn mount_on<F: Files, D: Device, L: Placing, K: Started>(
    files: &mut F,
    core: &mut Core,
    placement: &L,
    dev: &mut D,
) -> Result<(), FsRefusal>
    requires ready { AreReady (F.view files.old) core.old }
    requires at { D.told → IsAtStart K.start core.old (D.view dev.old) }
    ensures { IsMounted D.told K.start (F.view files.old) (F.view files.new) core.old core.new (D.view dev.old)
        (D.view dev.new) result }
{
    let mut blocks = CoreBlocks::new(core, placement, dev);
    files.mount(&mut blocks)
}

/// Whether the disk failed.
fn is_device(answer: &Result<(), FsRefusal>) -> bool
    ensures { result ≡ is_device answer.now }
{
    matches!(answer, Err(FsRefusal::Device))
}
