//! Canonical and generated texts.

use crate::commands::{serve, serve_by, status};
use std::test::Fail;

#[test]
fn a_program_is_generated(rt: HostRuntime) -> Result<(), Fail> {
    let want = b".entry *, start\n.sum 65536, 4096\nstart: li r1, 7\nadd r1, r1, r15\n\
li r2, 6364136223846793005\nli r3, 1442695040888963407\nli r4, 512\nloop: mul r1, r1, r2\nadd r1, r1, r3\n\
shr r5, r1, 30\nandi r6, r5, 32760\npinc r6, 65536\nandi r7, r5, 32704\nphist r8, r7, 65536, r0\n\
addi r4, r4, -1\nbne r4, r0, loop\npfence\nhalt\n";
    let served = serve_by(rt.alloc(), "gen 007", b"", b"", b"", 5000, 1, 0)?;
    assert_eq!(rt; served.sink.bytes(), want.as_slice());
    assert_eq!(rt; status(&served), 0);
    let failed = serve_by(rt.alloc(), "gen 7", b"", b"", b"", 5000, 0, 1)?;
    assert_eq!(rt; failed.line.bytes(), b"write fault\n".as_slice());
    assert_eq!(rt; failed.sink.bytes(), b"".as_slice());
    Ok(())
}

#[test]
fn canonical_texts_are_written(rt: HostRuntime) -> Result<(), Fail> {
    let program = b".entry 0, s\ns: li r1, 4096\npinc r1, 0\nld r2, r1, 0\nhalt";
    let want = b".entry 0, L0\nL0: li r1, 4096\npinc r1, 0\nld r2, r1, 0\nhalt\n";
    let served = serve(rt.alloc(), "asm p", program, b"", b"")?;
    assert_eq!(rt; served.sink.bytes(), want.as_slice());
    assert_eq!(rt; status(&served), 0);
    let again = serve_by(rt.alloc(), "asm p", served.sink.bytes(), b"", b"", 7, 0, 0)?;
    assert_eq!(rt; again.sink.bytes(), want.as_slice());
    let failed = serve_by(rt.alloc(), "asm p", program, b"", b"", 5000, 0, 1)?;
    assert_eq!(rt; status(&failed), 9);
    assert_eq!(rt; failed.sink.bytes(), b"".as_slice());
    Ok(())
}
