//! Objects in memory and adapters over std, with values worked out by hand.

ghost use Rattle.std.specs.Prelude.{◌≤◌};

use super::*;
use pei_types::OutOfMemory;
use std::alloc::Global;
use std::test::Fail;

const TEN: &[u8] = b"0123456789";

/// What is read of a program of these bytes, where a read moves at most `most` bytes and reads fail as told.
fn program_read(
    alloc: Global,
    program: &[u8],
    most: u32,
    fails: &[u32],
    limit: u32,
) -> Result<Result<Bytes, ReadEnd>, OutOfMemory>
    requires { 1 ≤ most }
{
    let mut files = MemFiles::make(alloc, program, b"machine", b"", b"", most, fails)?;
    Ok(read_limited(alloc, &mut files, Which::Program, "a", limit))
}

#[test]
fn files_are_read_whole(rt: HostRuntime) -> Result<(), Fail> {
    let long = vec![in rt.alloc(); 7u8; 5000]?;
    for (program, most, limit, want) in [
        (TEN, 1u32, 10u32, None),
        (TEN, 3, 11, None),
        (TEN, 5000, 10, None),
        (TEN, 1, 9, Some(ReadEnd::TooLong)),
        (TEN, 5000, 0, Some(ReadEnd::TooLong)),
        (b"", 1, 0, None),
        (long.as_slice(), 5000, 5000, None),
        (long.as_slice(), 5000, 4999, Some(ReadEnd::TooLong)),
    ] {
        assert!(rt; most > 0);
        match program_read(rt.alloc(), program, most, &[], limit)? {
            Ok(bytes) => {
                assert_eq!(rt; want, None, "limit {limit}, most {most}");
                assert_eq!(rt; bytes.as_slice(), program, "limit {limit}, most {most}");
            }
            Err(end) => assert_eq!(rt; Some(end), want, "limit {limit}, most {most}"),
        }
    }
    Ok(())
}

/// Ten bytes by reads of four are four reads, the last of which meets the end.
#[test]
fn reads_fail_where_asked(rt: HostRuntime) -> Result<(), Fail> {
    for fail in [1u32, 2, 3, 4] {
        let read = program_read(rt.alloc(), TEN, 4, &[9, fail], 10)?;
        assert_eq!(rt; read.err(), Some(ReadEnd::Failed), "read {fail}");
    }
    match program_read(rt.alloc(), TEN, 4, &[5], 10)? {
        Ok(bytes) => assert_eq!(rt; bytes.as_slice(), TEN),
        Err(end) => assert_eq!(rt; Some(end), None),
    }
    Ok(())
}

#[test]
fn sinks_take_fronts(rt: HostRuntime) -> Result<(), Fail> {
    for (room, most, fail, ok, want) in [
        (8u32, 1u32, 0u32, true, b"abcdefgh".as_slice()),
        (100, 1000, 0, true, b"abcdefgh".as_slice()),
        (100, 3, 1, false, b"".as_slice()),
        (100, 3, 2, false, b"abc".as_slice()),
        (100, 3, 3, false, b"abcdef".as_slice()),
        (100, 3, 4, true, b"abcdefgh".as_slice()),
        (5, 1000, 0, false, b"abcde".as_slice()),
        (0, 1, 0, false, b"".as_slice()),
    ] {
        let mut sink = MemSink::make(rt.alloc(), room, most, &[fail])?;
        let written = write_all(&mut sink, b"abcdefgh");
        assert_eq!(rt;
            written.is_ok(),
            ok,
            "room {room}, most {most}, fail {fail}"
        );
        assert_eq!(rt; sink.bytes(), want, "room {room}, most {most}, fail {fail}");
    }
    Ok(())
}

#[test]
fn texts_give_back_what_went_in(rt: HostRuntime) -> Result<(), Fail> {
    for text in ["", "machine.toml", "\u{e4}\u{20ac}"] {
        assert_eq!(rt; Text::make(rt.alloc(), text)?.as_str(), text);
    }
    Ok(())
}

#[test]
fn sure_objects_never_fail(rt: HostRuntime) -> Result<(), Fail> {
    let mut files = SureFiles::make(rt.alloc(), b"program", b"", TEN, b"kernel")?;
    let program = read_limited(rt.alloc(), &mut files, Which::Program, "p", 100)?;
    assert_eq!(rt; program.as_slice(), b"program".as_slice());
    let machine = read_limited(rt.alloc(), &mut files, Which::Machine, "", 100)?;
    assert_eq!(rt; machine.as_slice(), b"".as_slice());
    let trace = read_limited(rt.alloc(), &mut files, Which::Trace, "t", 10)?;
    assert_eq!(rt; trace.as_slice(), TEN);
    let kernel = read_limited(rt.alloc(), &mut files, Which::Kernel, "k", 6)?;
    assert_eq!(rt; kernel.as_slice(), b"kernel".as_slice());
    let mut sink = SureSink::make();
    assert_eq!(rt; sink.write(TEN), Ok(10));
    assert_eq!(rt; write_all(&mut sink, TEN), Ok(()));
    Ok(())
}

/// What is read of a file of the system.
fn system_read(rt: &HostRuntime, name: &str, limit: u32) -> Result<Bytes, ReadEnd> {
    let mut files = DiskFiles::make(rt);
    read_limited(rt.alloc(), &mut files, Which::Trace, name, limit)
}

#[test]
fn real_files_are_read(rt: HostRuntime) -> Result<(), Fail> {
    let missing = system_read(&rt, "no such folder/no such file", 10);
    assert_eq!(rt; missing.err(), Some(ReadEnd::Failed));
    assert_eq!(rt;
        system_read(&rt, "/dev/null", 10)?.as_slice(),
        b"".as_slice()
    );
    let endless = system_read(&rt, "/dev/zero", 5000);
    assert_eq!(rt; endless.err(), Some(ReadEnd::TooLong));
    Ok(())
}

#[test]
fn writers_get_the_bytes(rt: HostRuntime) -> Result<(), Fail> {
    let mut taken = Vec::new(rt.alloc());
    let mut sink = OutSink::make(&mut taken);
    assert_eq!(rt; write_all(&mut sink, b"abc"), Ok(()));
    assert_eq!(rt; write_all(&mut sink, b"de"), Ok(()));
    drop(sink);
    assert_eq!(rt; taken.as_slice(), b"abcde".as_slice());
    let mut room = [0u8; 4];
    let mut full = OutSink::make(&mut room[..]);
    assert_eq!(rt; write_all(&mut full, b"abcde"), Err(Failed));
    drop(full);
    assert_eq!(rt; room.as_slice(), b"abcd".as_slice());
    Ok(())
}
