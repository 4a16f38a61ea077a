ghost use Rattle.std.specs.Prelude.{None, false};

use outside::{BentDisk, Disk, Failed, MemDisk};
use repository::{Filed, RepoFault, fetch, file};
use std::test::Fail;

/// The digests are by `sha256sum`.
const BYTES: [u8; 19] = [
    0, 0, 1, 2, 1, 0, 2, 1, 0, 0, 0, 0x44, 0, 1, 0, 1, 0, 0x44, 1,
];

const DIGEST: [u8; 32] = [
    0x6e, 0x6e, 0x9f, 0x36, 0x6c, 0xc6, 0x3b, 0x9b, 0xb6, 0x55, 0x75, 0x89, 0x6a, 0xda, 0x79, 0x61,
    0xba, 0x95, 0x32, 0xd2, 0x30, 0x6f, 0x80, 0x50, 0x76, 0xb3, 0x23, 0xf4, 0x7c, 0x91, 0x89, 0xfa,
];
/// With 3 in place of 2 as byte 3.
const CHANGED: [u8; 32] = [
    0x1f, 0x88, 0xd2, 0xae, 0x9c, 0x1a, 0x65, 0x9d, 0x4c, 0x87, 0x4b, 0x0f, 0x81, 0x40, 0x19, 0x52,
    0x79, 0xdd, 0x4b, 0x24, 0xc5, 0xe9, 0x40, 0xa1, 0x5e, 0x08, 0xb9, 0xdc, 0x57, 0x02, 0x7e, 0xbf,
];
/// Of no bytes.
const EMPTY: [u8; 32] = [
    0xe3, 0xb0, 0xc4, 0x42, 0x98, 0xfc, 0x1c, 0x14, 0x9a, 0xfb, 0xf4, 0xc8, 0x99, 0x6f, 0xb9, 0x24,
    0x27, 0xae, 0x41, 0xe4, 0x64, 0x9b, 0x93, 0x4c, 0xa4, 0x95, 0x99, 0x1b, 0x78, 0x52, 0xb8, 0x55,
];

const DAMAGED: RepoFault = RepoFault::Damaged {
    kept: DIGEST,
    found: CHANGED,
};

/// Gives and takes at most four bytes a call.
#[derive(Drop)]
struct ShortDisk {
    inner: MemDisk,
}

impl Disk for ShortDisk {
    ghost bytes = { λ _. None };

    ghost reach = { λ _. 0 };

    ghost honest = { λ _. false };

    ghost faults = { λ d. d.inner.calls.faults };

    ghost told = { λ d h. h };

    fn read_at(&mut self, at: u64, b: &mut [u8]) -> Result<usize, Failed> {
        let n = b.len().min(4);
        self.inner.read_at(at, &mut b[..n])
    }

    fn write_at(&mut self, at: u64, b: &[u8]) -> Result<usize, Failed> {
        let n = b.len().min(4);
        self.inner.write_at(at, &b[..n])
    }
}

#[test]
fn only_the_filed_bytes_are_fetched(rt: HostRuntime) -> Result<(), Fail> {
    let alloc = rt.alloc();
    let mut disk = MemDisk::new(Vec::new(alloc), Vec::new(alloc));
    let filed = file(&mut disk, 0, &BYTES)?;
    let record = Filed {
        place: 0,
        len: 19,
        digest: DIGEST,
    };
    assert_eq!(rt; filed, record);
    assert!(rt;
        matches!(fetch(alloc, &mut disk, &filed), Ok(v) if v.as_slice() == BYTES.as_slice())
    );
    assert_eq!(rt; disk.write_at(3, &[3]), Ok(1));
    assert!(rt; matches!(fetch(alloc, &mut disk, &filed), Err(e) if e == DAMAGED));
    Ok(())
}

#[test]
fn one_turned_bit_is_damage(rt: HostRuntime) -> Result<(), Fail> {
    let alloc = rt.alloc();
    let inner = MemDisk::new(Vec::new(alloc), Vec::new(alloc));
    let mut disk = BentDisk::new(inner, 1, 24);
    let filed = file(&mut disk, 7, &BYTES)?;
    assert!(rt; matches!(fetch(alloc, &mut disk, &filed), Err(e) if e == DAMAGED));
    assert!(rt;
        matches!(fetch(alloc, &mut disk, &filed), Ok(v) if v.as_slice() == BYTES.as_slice())
    );
    Ok(())
}

#[test]
fn short_calls_are_repeated_and_each_may_fail(rt: HostRuntime) -> Result<(), Fail> {
    let alloc = rt.alloc();
    // five calls write the 19 bytes and five read them; the eleventh isn't made
    for failing in 1..12 {
        let inner = MemDisk::new(Vec::new(alloc), vec![in alloc; failing]?);
        let mut disk = ShortDisk { inner };
        match file(&mut disk, 2, &BYTES) {
            Err(e) => assert!(rt; e == RepoFault::Failed && failing <= 5),
            Ok(filed) => match fetch(alloc, &mut disk, &filed) {
                Err(e) => assert!(rt; e == RepoFault::Failed && failing <= 10),
                Ok(v) => assert!(rt; v.as_slice() == BYTES.as_slice() && failing == 11),
            },
        }
    }
    Ok(())
}

#[test]
fn no_bytes_are_a_record(rt: HostRuntime) -> Result<(), Fail> {
    let alloc = rt.alloc();
    let mut disk = MemDisk::new(Vec::new(alloc), vec![in alloc; 1]?);
    let filed = file(&mut disk, u64::MAX, b"")?;
    assert_eq!(rt; filed.digest, EMPTY);
    assert!(rt; matches!(fetch(alloc, &mut disk, &filed), Ok(v) if v.is_empty()));
    Ok(())
}
