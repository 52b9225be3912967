use hz_io::{Failed, FileFault, Files, MemFiles, MemSink, MemSource, Sink, Source};
use std::test::Fail;

#[test]
fn files_read_and_written(rt: HostRuntime) -> Result<(), Fail> {
    let mut files = MemFiles::new(rt.alloc());
    files.write("a", &[1, 2, 3])?;
    files.write("b", &[9])?;
    files.write("b", &[7, 8])?;
    assert_eq!(rt;
        files.read(rt.alloc(), "a", 1)?.as_slice(),
        [1, 2].as_slice()
    );
    assert_eq!(rt;
        files.read(rt.alloc(), "a", u64::MAX)?.as_slice(),
        [1, 2, 3].as_slice()
    );
    assert_eq!(rt;
        files.read(rt.alloc(), "b", 9)?.as_slice(),
        [7, 8].as_slice()
    );
    assert_eq!(rt; files.read_faults("a"), 0);
    assert_eq!(rt; files.write_faults("a"), 0);
    Ok(())
}

#[test]
fn files_that_fail(rt: HostRuntime) -> Result<(), Fail> {
    let mut files = MemFiles::new(rt.alloc());
    files.fail_at(1)?;
    files.fail_at(2)?;
    files.write("a", &[1])?;
    assert_eq!(rt; files.write("a", &[2]).err(), Some(FileFault::Failed));
    assert_eq!(rt;
        files.read(rt.alloc(), "a", 9).err(),
        Some(FileFault::Failed)
    );
    assert_eq!(rt; files.read(rt.alloc(), "a", 9)?.as_slice(), [1].as_slice());
    assert_eq!(rt;
        files.read(rt.alloc(), "c", 9).err(),
        Some(FileFault::Failed)
    );
    assert_eq!(rt; files.read_faults("a"), 2);
    assert_eq!(rt; files.write_faults("c"), 1);
    Ok(())
}

#[test]
fn source_in_pieces(rt: HostRuntime) -> Result<(), Fail> {
    let mut source = MemSource::new(rt.alloc(), [1, 2, 3].to_vec(rt.alloc())?, 2);
    source.fail_at(1)?;
    let mut buf = [0; 3];
    assert_eq!(rt; source.take(&mut buf), Ok(2));
    assert_eq!(rt; buf, [1, 2, 0]);
    assert_eq!(rt; source.take(&mut buf), Err(Failed));
    assert_eq!(rt; source.faults(), 1);
    assert_eq!(rt; source.take(&mut buf), Ok(1));
    assert_eq!(rt; buf[0], 3);
    assert_eq!(rt; source.take(&mut buf), Ok(0));
    Ok(())
}

#[test]
fn sink_with_room(rt: HostRuntime) -> Result<(), Fail> {
    let mut sink = MemSink::new(rt.alloc(), 3)?;
    sink.fail_at(1)?;
    assert_eq!(rt; sink.put(&[1, 2]), Ok(()));
    assert_eq!(rt; sink.put(&[3]), Err(Failed));
    assert_eq!(rt; sink.put(&[3, 4]), Err(Failed));
    assert_eq!(rt; sink.put(&[5]), Ok(()));
    assert_eq!(rt; sink.bytes(), [1, 2, 5].as_slice());
    assert_eq!(rt; sink.faults(), 2);
    Ok(())
}
