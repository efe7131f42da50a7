//! Bits of the largest disk, one a block.

use bit_array::BitArray;
use std::test::Fail;

#[test]
fn bits_are_set_apart_and_cleared(rt: HostRuntime) -> Result<(), Fail> {
    let mut bits = BitArray::new(rt.alloc(), 1_048_576)?;
    assert_eq!(rt; bits.len(), 1_048_576);
    for bit in [0, 63, 64, 1_048_575, 1_048_576] {
        assert!(rt; !bits.get(bit));
        bits.set(bit, true);
    }
    assert!(rt; bits.get(0) && bits.get(63) && bits.get(64) && bits.get(1_048_575));
    assert!(rt; !bits.get(1) && !bits.get(62) && !bits.get(65) && !bits.get(1_048_576));
    bits.set(64, false);
    assert!(rt; bits.get(63) && !bits.get(64));
    bits.clear();
    assert!(rt; !bits.get(0) && !bits.get(1_048_575));
    Ok(())
}
