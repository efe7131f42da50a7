//! Frames of asks as a protocol.

ghost use Rattle.std.specs.Prelude.{[], IfOk};
ghost use Rattle.request_frames.specs.Cutting.{WasFed};
ghost use Rattle.shell_server.specs.Frames.{file_spelling};
ghost use Rattle.shell_server.specs.LineLaws.{file_lawful};

use crate::lines::TreeLayout;
use fs_trees::ShellAsk;
use request_frames::FrameCutter;
use serving::{Ending, Fed, Protocol};
use shell_text::{FileAsk, decode_ask};
use std::alloc::Global;
use std::marker::PhantomData;
use tsd_model::NoMemory;

/// Cuts frames, and reads each body as an ask of a layout. Room for the longest frame is taken when it is made, and
/// none later.
#[derive(Drop)]
pub struct FileFrames<Y: TreeLayout> {
    cutter: FrameCutter,
    of: PhantomData<Y>,
}

impl<Y: TreeLayout> FileFrames<Y> {
    /// Nothing was fed yet.
    pub fn new(alloc: Global) -> Result<FileFrames<Y>, NoMemory>
        ensures { IfOk result (λ f. ⟦<FileFrames<Y> as Protocol>⟧.was_fed [] f) }
    {
        let cutter = FrameCutter::new(alloc)?;
        Ok(FileFrames {
            cutter,
            of: PhantomData,
        })
    }
}

impl<Y: TreeLayout> Protocol for FileFrames<Y> {
    type Request = FileAsk;

    ghost spelling = { file_spelling Y.layout };

    ghost was_fed = { λ x f. WasFed x f.cutter };

    ghost lawful = { file_lawful Y.layout };

    fn blank() -> FileAsk {
        FileAsk::Shell { ask: ShellAsk::Bad }
    }

    fn feed(&mut self, piece: &[u8], into: &mut FileAsk) -> Fed {
        let fed = self.cutter.feed(piece);
        if fed.whole {
            *into = decode_ask(Y::kind(), self.cutter.body());
        }
        Fed {
            used: fed.used,
            whole: fed.whole,
        }
    }

    fn ending(&self) -> Ending<FileAsk> {
        if self.cutter.is_inside() {
            return Ending::CutOff;
        }
        Ending::Nothing
    }
}
