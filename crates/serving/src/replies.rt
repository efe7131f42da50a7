//! How replies go.

ghost use Rattle.image_device.specs.Runs.{PutsAll};
ghost use Rattle.tsd_model.specs.ReplyForm.{HasForm};
ghost use Rattle.serving.specs.Voice.{Voice, IsVoice};

use image_device::{Failed, Port};
use tsd_model::Reply;

/// Sends replies.
pub trait Replies {
    /// How replies are written.
    ghost voice: { Voice };

    /// Sends a reply whole. After `Failed` a shorter front of it is sent; it comes only where `put_faults` rose.
    fn put_reply<P: Port>(port: &mut P, reply: &Reply) -> Result<(), Failed>
        requires { HasForm reply.now }
        /// promise: The reply's text is sent, or a shorter front of it where the call fails.
        ensures { PutsAll P.told (voice.text reply.now) (P.view port.old) (P.view port.new) result };

    /// Replies part in one way.
    ghost apart: { IsVoice voice };
}
