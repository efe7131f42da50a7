//! How a run over two images as one disk ends.

ghost use Rattle.std.specs.Prelude.{◌≡◌, ◌≢◌, ◌∷◌, ◌++◌, []};
ghost use Rattle.tsd_serve.specs.MirrorStatus.{own_status, ended_with, mirror_code, mirror_status_text, side_text};

use mirror_device::Side;
use script_text::OutBuf;
use tsd_words::{Status, status_line};

/// Why a run over two images as one disk ended.
#[derive(Clone, Copy, Debug, PartialEq, Eq)]
pub enum MirrorStatus {
    /// As a run over one image does. Where all was done, neither side failed.
    Ended(Status),

    /// All was done, on the other side alone: this one failed, and what it holds counts no more.
    SideLost(Side),
}

impl MirrorStatus {
    /// The exit code: 11 where a side was lost, else that of the status.
    pub fn code(&self) -> u8
        ensures { result ≡ mirror_code self.now }
    {
        match self {
            MirrorStatus::Ended(status) => status.code(),
            MirrorStatus::SideLost(_) => 11,
        }
    }

    /// Of a command that ended so, with this side lost or none.
    pub(crate) fn of(status: Status, lost: Option<Side>) -> MirrorStatus
        ensures answered { own_status result ≡ status }
        ensures value { result ≡ ended_with status lost }
    {
        match (status, lost) {
            (Status::Done, Some(side)) => MirrorStatus::SideLost(side),
            _ => MirrorStatus::Ended(status),
        }
    }
}

/// Replaces the bytes by the text of a status and a line feed. A run that is done with both sides has no text.
pub fn mirror_status_line(status: &MirrorStatus, into: &mut OutBuf)
    requires { status.now ≢ MirrorStatus.Ended Status.Done }
    ensures { into.new ≡ mirror_status_text status.now ++ 10 ∷ [] }
{
    match status {
        MirrorStatus::Ended(status) => status_line(status, into),
        MirrorStatus::SideLost(side) => {
            into.clear();
            into.put(b"tsd: side lost, ".as_slice());
            into.put(side_name(*side));
            into.put(b"\n".as_slice());
        }
    }
}

/// Which side it is, in a word.
fn side_name(side: Side) -> &'static [u8]
    ensures { result.now ≡ side_text side }
{
    match side {
        Side::First => b"first".as_slice(),
        Side::Second => b"second".as_slice(),
    }
}
