//! Frames: how a text is cut into them.

ghost use Rattle.std.specs.Prelude.{◌<◌};

use request_frames::{FrameCutter, decode_body};
use std::alloc::Global;
use std::test::Fail;
use tsd_model::Request;

/// The bodies of a text's frames, which comes in pieces of one size, a bar after each, and the body that isn't whole.
fn barred(alloc: Global, text: &[u8], size: usize) -> Result<Vec<u8>, Fail>
    requires { 0 < size }
{
    let mut cutter = FrameCutter::new(alloc)?;
    let mut all = Vec::new(alloc);
    for piece in text.chunks(size) {
        feed_all(&mut cutter, piece, &mut all)?;
    }
    if cutter.is_inside() {
        all.extend_from_slice(cutter.body())?;
    }
    Ok(all)
}

/// Feeds a piece, and puts down each body that is whole, with a bar.
fn feed_all(cutter: &mut FrameCutter, piece: &[u8], all: &mut Vec<u8>) -> Result<(), Fail> {
    let mut left = piece;
    while !left.is_empty() {
        let fed = cutter.feed(left);
        left = &left[fed.used..];
        if fed.whole {
            all.extend_from_slice(cutter.body())?;
            all.push(b'|')?;
        }
    }
    Ok(())
}

/// The same frames, in pieces of 1 to 17 bytes and all at once.
#[test]
fn cut_at_every_size(rt: HostRuntime) -> Result<(), Fail> {
    let text = b"\x01\0a\0\0\x05\0bcdef\0\0\0\0\x11\0ghijklmnopqrstuvw\x04\0xyz".as_slice();
    let bodies = b"a||bcdef|||ghijklmnopqrstuvw|xyz".as_slice();
    for size in 1..18 {
        assert_eq!(rt;
            barred(rt.alloc(), text, size)?.as_slice(),
            bodies,
            "{size}"
        );
    }
    assert_eq!(rt; barred(rt.alloc(), text, 4096)?.as_slice(), bodies);
    Ok(())
}

/// Where bytes end inside a frame.
#[test]
fn inside_a_frame(rt: HostRuntime) -> Result<(), Fail> {
    let table: [(&[u8], bool, bool); 8] = [
        (b"", false, false),
        (b"\x02", false, true),
        (b"\0", false, true),
        (b"a", false, true),
        (b"", false, true),
        (b"b", true, false),
        (b"", false, false),
        (b"\0\0", true, false),
    ];
    let mut cutter = FrameCutter::new(rt.alloc())?;
    for (piece, whole, inside) in table {
        let fed = cutter.feed(piece);
        assert_eq!(rt; (fed.used, fed.whole), (piece.len(), whole));
        assert_eq!(rt; cutter.is_inside(), inside, "{piece:?}");
    }
    Ok(())
}

/// A frame of the greatest length is one frame, and its body is no request.
#[test]
fn longest_frame(rt: HostRuntime) -> Result<(), Fail> {
    let mut cutter = FrameCutter::new(rt.alloc())?;
    cutter.feed(b"\xff\xff");
    let piece = [7; 4096];
    for _ in 0..15 {
        let fed = cutter.feed(piece.as_slice());
        assert_eq!(rt; (fed.used, fed.whole), (4096, false));
    }
    let fed = cutter.feed(piece.as_slice());
    assert_eq!(rt;
        (fed.used, fed.whole, cutter.body().len()),
        (4095, true, 65535)
    );
    let mut request = Request::GetFree;
    decode_body(cutter.body(), &mut request);
    assert_eq!(rt; request, Request::Bad);
    let fed = cutter.feed(b"\x01\0\x07\x01");
    assert_eq!(rt; (fed.used, fed.whole), (3, true));
    decode_body(cutter.body(), &mut request);
    assert_eq!(rt; request, Request::GetFree);
    Ok(())
}
