//! `format`: a disk made anew, with capabilities of a seed.

ghost use Rattle.std.specs.Prelude.{◌≡◌, ◌≢◌, length};
ghost use Rattle.tsd_model.specs.Geometry.{IsLawful};
ghost use Rattle.image_layout.specs.declared.fault.ImageFault.{ImageFault};
ghost use Rattle.image_device.specs.Runs.{IsFirm, LeavesOnly};
ghost use Rattle.serving.specs.Faults.{TellsPortFaults};
ghost use Rattle.image_runs.specs.Behind.{LeavesSectorsBehind};
ghost use Rattle.image_runs.specs.Sending.{IsEnding};
ghost use Rattle.image_runs.specs.Format.{HasFormatted, IsLeftOfFormat, caps_of};

use crate::ending::put_text;
use cap_store::seed_caps;
use image_device::Port;
use recovery::format;
use tsd_model::CapList;
use tsd_words::{Format, Status, cap_lines};

/// Formats an image of the words' size, with the capabilities that the seed gives, and puts one line for each primary
/// block: its number, and its capabilities to read and to write. It takes no memory.
///
/// The status is Done, or DeviceFault or PutFault where that count rose.
pub fn format_image<P: Port>(port: &mut P, words: &Format) -> Status
    requires lawful { IsLawful words.now.geometry }
    ensures ending { IsEnding result }
    // No image is opened, and no memory taken.
    ensures image { (why : ImageFault) → result ≢ Status.NotImage why }
    /// promise (with image): No memory is taken, and no image opened.
    ensures memory { result ≢ Status.NoMemory }
    /// promise: After Done, and after a put that failed, nothing is loose, nothing is left to be done, and the disk
    /// stands for the fresh world of the words' size and the seed's capabilities; one line for each primary block was
    /// sent, or a proper front of them.
    ensures made { P.told → HasFormatted result words.now (P.view port.old) (P.view port.new) }
    /// promise: Each image left is one that formatting may leave; wherever a byte was sent it stands for the fresh
    /// world.
    ensures any_moment { P.told → LeavesOnly (P.view port.old) (P.view port.new) (IsLeftOfFormat words.now
        (P.view port.old)) }
    /// promise: The sectors after the image stay as they are.
    ensures behind { P.told → IsFirm (P.view port.old) → LeavesSectorsBehind words.now.geometry (P.view port.old)
        (P.view port.new) }
    ensures faults { TellsPortFaults result (P.view port.old) (P.view port.new) }
{
    let caps = caps_of(words);
    match format(port, &words.geometry, &caps) {
        Ok(()) => put_text(port, &cap_lines(&caps), Status::Done),
        Err(_) => Status::DeviceFault,
    }
}

/// The capabilities of the primary blocks.
fn caps_of(words: &Format) -> CapList
    requires { IsLawful words.now.geometry }
    ensures value { result ≡ caps_of words.now }
    ensures each { length result ≡ words.now.geometry.primaries }
{
    let all = seed_caps(&words.seed);
    let mut caps = CapList::new();
    for pair in &all.as_slice()[..words.geometry.primaries as usize] {
        let _fits = caps.push(*pair);
    }
    caps
}
