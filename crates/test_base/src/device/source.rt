// A source in pieces.
use image_device::{MemSource, Source};
use std::test::Fail;

#[test]
fn a_source_comes_in_pieces(rt: HostRuntime) -> Result<(), Fail> {
    let alloc = rt.alloc();
    for (cut, pieces) in [
        (1, [1, 1, 1, 1, 1, 0, 0]),
        (2, [2, 2, 1, 0, 0, 0, 0]),
        (3, [3, 2, 0, 0, 0, 0, 0]),
        (9, [4, 1, 0, 0, 0, 0, 0]),
    ] {
        let mut source = MemSource::new(b"hello".as_slice().to_vec(alloc)?, cut, Vec::new(alloc));
        for piece in pieces {
            let mut room = [7; 4];
            assert_eq!(rt; source.take(&mut room), Ok(piece), "cut {cut}");
            assert!(rt; room[piece..].iter().all(|byte| *byte == 7), "cut {cut}");
        }
    }
    Ok(())
}

#[test]
fn a_failed_take_takes_nothing(rt: HostRuntime) -> Result<(), Fail> {
    let alloc = rt.alloc();
    let mut source = MemSource::new(b"ab".as_slice().to_vec(alloc)?, 1, [1, 3].to_vec(alloc)?);
    for (is_ok, byte) in [(true, 97), (false, 7), (true, 98), (false, 7), (true, 7)] {
        let mut room = [7; 2];
        assert_eq!(rt; source.take(&mut room).is_ok(), is_ok);
        assert_eq!(rt; room, [byte, 7]);
    }
    Ok(())
}
