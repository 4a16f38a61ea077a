//! The objects in memory, and the loops that read and write by them.

use outside::{
    BentDisk, Disk, Failed, Gate, MemDisk, MemShelf, MemSink, MemSource, Moment, QuietGate,
    ReadFault, Source, SureDisk, SureShelf, SureSink, SureSource, read_whole, write_all,
};
use std::test::Fail;

#[test]
fn a_disk_grows_by_zeros(rt: HostRuntime) -> Result<(), Fail> {
    let alloc = rt.alloc();
    let mut disk = MemDisk::new(vec![in alloc; 5]?, vec![in alloc; 2]?);
    assert_eq!(rt; disk.write_at(3, &[7]), Ok(1));
    assert_eq!(rt; disk.write_at(0, &[9]), Err(Failed));
    assert_eq!(rt; disk.bytes(), [5, 0, 0, 7].as_slice());
    let mut b = [1; 3];
    assert_eq!(rt; disk.read_at(2, &mut b), Ok(3));
    assert_eq!(rt; b, [0, 7, 0]);
    Ok(())
}

#[test]
fn one_read_is_bent(rt: HostRuntime) -> Result<(), Fail> {
    let alloc = rt.alloc();
    let inner = MemDisk::new(vec![in alloc; 1, 2]?, Vec::new(alloc));
    let mut disk = BentDisk::new(inner, 2, 11);
    assert_eq!(rt; disk.write_at(0, &[4]), Ok(1));
    let mut b = [0; 2];
    for want in [[4, 2], [4, 10], [4, 2]] {
        assert_eq!(rt; disk.read_at(0, &mut b), Ok(2));
        assert_eq!(rt; b, want);
    }
    Ok(())
}

#[test]
fn second_write_fails(rt: HostRuntime) -> Result<(), Fail> {
    let alloc = rt.alloc();
    let mut sink = MemSink::new(alloc, vec![in alloc; 2]?);
    assert_eq!(rt; write_all(&mut sink, b"ab"), Ok(()));
    assert_eq!(rt; write_all(&mut sink, b"cd"), Err(Failed));
    assert_eq!(rt; write_all(&mut sink, b"ef"), Ok(()));
    assert_eq!(rt; sink.bytes(), b"abef".as_slice());
    Ok(())
}

#[test]
fn three_bytes_are_read_whole(rt: HostRuntime) -> Result<(), Fail> {
    let alloc = rt.alloc();
    let mut files = Vec::new(alloc);
    files.push((String::from_str(alloc, "a.c")?, vec![in alloc; 1, 2, 3]?))?;
    let mut shelf = MemShelf::new(files, vec![in alloc; 4]?);
    assert!(rt;
        matches!(
            read_whole(alloc, &mut shelf, "a.c", 2),
            Err(ReadFault::TooLong)
        )
    );
    assert!(rt;
        matches!(read_whole(alloc, &mut shelf, "a.c", 3), Ok(v) if v.as_slice() == [1, 2, 3].as_slice())
    );
    // the fourth call, which is in the list, is the first of this read
    assert!(rt;
        matches!(
            read_whole(alloc, &mut shelf, "a.c", 3),
            Err(ReadFault::Failed)
        )
    );
    assert!(rt;
        matches!(
            read_whole(alloc, &mut shelf, "b.c", 3),
            Err(ReadFault::Failed)
        )
    );
    Ok(())
}

#[test]
fn a_sure_source_gives_its_bytes(rt: HostRuntime) -> Result<(), Fail> {
    let mut b = [9; 2];
    let mut source = SureSource::new(vec![in rt.alloc(); 1, 2, 3]?);
    assert_eq!(rt; source.read(&mut b), Ok(2));
    assert_eq!(rt; b, [1, 2]);
    assert_eq!(rt; source.read(&mut b), Ok(1));
    assert_eq!(rt; b, [3, 2]);
    assert_eq!(rt; source.read(&mut b), Ok(0));
    Ok(())
}

#[test]
fn a_source_fails_at_its_calls(rt: HostRuntime) -> Result<(), Fail> {
    let alloc = rt.alloc();
    let mut b = [9; 2];
    let mut source = MemSource::new(vec![in alloc; 4, 5]?, vec![in alloc; 1]?);
    assert_eq!(rt; source.read(&mut b), Err(Failed));
    assert_eq!(rt; source.read(&mut b), Ok(2));
    assert_eq!(rt; b, [4, 5]);
    Ok(())
}

#[test]
fn sure_forms_answer(rt: HostRuntime) -> Result<(), Fail> {
    let alloc = rt.alloc();
    let mut sink = SureSink::new();
    assert_eq!(rt; write_all(&mut sink, b"abc"), Ok(()));
    let mut files = Vec::new(alloc);
    files.push((String::from_str(alloc, "a.c")?, vec![in alloc; 1, 2, 3]?))?;
    let mut shelf = SureShelf::new(files);
    assert!(rt;
        matches!(read_whole(alloc, &mut shelf, "a.c", 3), Ok(v) if v.as_slice() == [1, 2, 3].as_slice())
    );
    assert!(rt; matches!(read_whole(alloc, &mut shelf, "b.c", 3), Ok(v) if v.is_empty()));
    QuietGate.at(0, Moment::Transform);
    Ok(())
}

#[test]
fn a_disk_keeps_its_length(rt: HostRuntime) -> Result<(), Fail> {
    let mut disk = SureDisk::new(rt.alloc(), 4)?;
    assert_eq!(rt; disk.write_at(2, &[7, 8, 9]), Ok(3));
    let mut b = [1; 4];
    assert_eq!(rt; disk.read_at(1, &mut b), Ok(4));
    assert_eq!(rt; b, [0, 7, 8, 0]);
    Ok(())
}
