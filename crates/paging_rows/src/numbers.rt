//! Numbers and bytes that spell none.

use std::test::Fail;
use var_bytes::{len, put, take};

#[test]
fn spellings(rt: HostRuntime) -> Result<(), Fail> {
    let rows: [(u32, &[u8]); 6] = [
        (0, &[0]),
        (127, &[0x7f]),
        (300, &[0xac, 0x02]),
        (16_384, &[0x80, 0x80, 0x01]),
        (268_435_455, &[0xff, 0xff, 0xff, 0x7f]),
        (4_294_967_295, &[0xff, 0xff, 0xff, 0xff, 0x0f]),
    ];
    for (n, bytes) in rows {
        let mut out = Vec::new(rt.alloc());
        put(&mut out, n)?;
        assert!(rt; out.as_slice() == bytes);
        assert_eq!(rt; len(n) as usize, bytes.len());
        assert_eq!(rt; take(bytes, 0), Some((n, bytes.len())));
    }
    Ok(())
}

#[test]
fn no_spellings(rt: HostRuntime) {
    let rows: [&[u8]; 5] = [
        &[],
        &[0x80],
        &[0x80, 0x00],
        &[0xff, 0xff, 0xff, 0xff, 0x1f],
        &[0x80, 0x80, 0x80, 0x80, 0x80, 0x01],
    ];
    for bytes in rows {
        assert_eq!(rt; take(bytes, 0), None);
    }
}
