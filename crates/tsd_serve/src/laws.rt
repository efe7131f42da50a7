//! The headline and the law of access, read off what the top call did.

ghost use Rattle.std.specs.Prelude.{Some};
ghost use Rattle.serving.specs.Ran.{moments, taking};
ghost use Rattle.tsd_serve.specs.Access.{AccessLaw};
ghost use Rattle.tsd_serve.specs.Did.{Did};
ghost use Rattle.tsd_serve.specs.Headline.{Headline};
ghost use Rattle.tsd_words.specs.declared.commands.Command.{Command as Words};
ghost use Rattle.tsd_words.specs.declared.status.Status.{Status as Ended};

use image_device::{Port, Source};

/// The headline, from the clause `did` of [`tsd`](crate::tsd): for every list of requests of interleaved sessions and a
/// crash before or within any sector write, the image left stands for the world after some prefix of those requests
/// that holds every request whose reply was sent; each reply sent is the one that the abstract disk gives at that
/// point.
pub fn acknowledged_requests_stay<S: Source, P: Port>()
    /// promise: **For every list of requests of interleaved sessions, and a crash before or within any sector write,
    /// the image left stands for the world after some prefix of those requests that holds every request whose reply was
    /// sent; each reply sent is the one that the abstract disk gives at that point.**
    ensures { (words : Words) (status : Ended) (source_old source_new : S) (port_old port_new : P)
        → let source = taking S.told S.taken S.left_bytes S.ended source_old source_new in
        let port = moments P.told P.view port_old port_new in
        Did (Some words) status source port → P.told → Headline words source port }
{}

/// The law of access, from the same clause: in every image that a crash leaves after `run`, `serve` or `group`, and in
/// every reply, what differs from the start was changed by a session that attained write there, by a capability that it
/// showed or along a pointer from where it was granted write: the bytes, pointers and capabilities of a block that
/// stayed live, and that a block of the start was freed, given out again since or not. What no session could reach is
/// as it was, and no reply depends on its bytes.
pub fn changes_are_by_access<S: Source, P: Port>()
    /// promise: **Who changed what.** After `run`, `serve` or `group`, in every image that a crash leaves and in every
    /// reply: what of the start's blocks differs was changed by a session with write access there, by a capability that
    /// it showed or along a pointer from where it was granted write; so it is too where a block of the start was freed,
    /// also where it was given out again since. What no session could reach is as it was, and no reply depends on its
    /// bytes.
    ensures { (words : Words) (status : Ended) (source_old source_new : S) (port_old port_new : P)
        → let source = taking S.told S.taken S.left_bytes S.ended source_old source_new in
        let port = moments P.told P.view port_old port_new in
        Did (Some words) status source port → P.told → AccessLaw words source port }
{}
