use super::*;
use pei_io::MemSink;
use std::test::Fail;

const SEVEN: &[u8] = b".entry *, start\n.sum 65536, 4096\nstart: li r1, 7\nadd r1, r1, r15\n\
li r2, 6364136223846793005\nli r3, 1442695040888963407\nli r4, 512\nloop: mul r1, r1, r2\n\
add r1, r1, r3\nshr r5, r1, 30\nandi r6, r5, 32760\npinc r6, 65536\nandi r7, r5, 32704\n\
phist r8, r7, 65536, r0\naddi r4, r4, -1\nbne r4, r0, loop\npfence\nhalt\n";

#[test]
fn writes_the_program_of_seven(rt: HostRuntime) -> Result<(), Fail> {
    let mut sink = MemSink::make(rt.alloc(), 400, 400, &[])?;
    generate(7, &mut sink)?;
    assert_eq!(rt; sink.bytes(), SEVEN);
    Ok(())
}

#[test]
fn stops_at_a_failure(rt: HostRuntime) -> Result<(), Fail> {
    let mut sink = MemSink::make(rt.alloc(), 400, 400, &[3])?;
    assert_eq!(rt; generate(7, &mut sink), Err(Failed));
    assert_eq!(rt;
        sink.bytes(),
        b".entry *, start\n.sum 65536, 4096\nstart: li r1, ".as_slice()
    );
    Ok(())
}
