//! Scheduled runs on machines of several banks are those on one bank.

use crate::commands::{Served, serve, status};
use crate::programs::{RAISE_APART, RAISED_APART};
use pei_cli::PlainEnd;
use std::test::Fail;

/// Two cores whose PEIs, on two blocks, share an entry of the directory.
const ALIASES: &[u8] = b"cores = 2\nblocks = 128\ndirectory = 2\nvaults = 2\n";

/// The same, with each of the two blocks in a bank of its own.
const ALIASES_APART: &[u8] = b"cores = 2\nblocks = 128\ndirectory = 2\nvaults = 2\nbanks = 2\n";

/// Whether two runs came to their ends by as many events and turns, with the same output.
fn are_alike(one: &Served, other: &Served) -> bool {
    match (&one.result, &other.result) {
        (
            Ok(PlainEnd::Sched { journal, turns, .. }),
            Ok(
                PlainEnd::Sched {
                    journal: other_journal,
                    turns: other_turns,
                    ..
                },
            ),
        ) => {
            journal.len() == other_journal.len()
                && *turns == *other_turns
                && one.sink.bytes() == other.sink.bytes()
        }
        _ => false,
    }
}

#[test]
fn two_banks_run_as_one(rt: HostRuntime) -> Result<(), Fail> {
    for command in [
        "sched p m rr 1000",
        "sched p m serial 1000",
        "sched p m 7 1000",
    ] {
        let one = serve(rt.alloc(), command, RAISE_APART, ALIASES, b"")?;
        let two = serve(rt.alloc(), command, RAISE_APART, ALIASES_APART, b"")?;
        assert_eq!(rt; two.sink.bytes(), RAISED_APART, "{command}");
        assert_eq!(rt; status(&two), 0, "{command}");
        assert!(rt; are_alike(&one, &two), "{command}");
    }
    let command = "sched p m rr 1000 trace";
    let one = serve(rt.alloc(), command, RAISE_APART, ALIASES, b"")?;
    let two = serve(rt.alloc(), command, RAISE_APART, ALIASES_APART, b"")?;
    assert!(rt; are_alike(&one, &two));
    Ok(())
}

/// Four cores, and no more than a machine has to name.
const FOUR_CORES: &[u8] = b"cores = 4\nblocks = 65536\n";

/// The same, in four banks.
const FOUR_BANKS: &[u8] = b"cores = 4\nblocks = 65536\nbanks = 4\n";

/// Each core makes 512 increments.
const INCREMENTED: &[u8] =
    b"core 0 halt\ncore 1 halt\ncore 2 halt\ncore 3 halt\nsum 65536 4096 2048\nstatus 0\n";

#[test]
fn four_banks_run_as_one(rt: HostRuntime) -> Result<(), Fail> {
    let made = serve(rt.alloc(), "gen 7", b"", b"", b"")?;
    let program = made.sink.bytes();
    let command = "sched p m rr 100000000";
    let one = serve(rt.alloc(), command, program, FOUR_CORES, b"")?;
    let four = serve(rt.alloc(), command, program, FOUR_BANKS, b"")?;
    assert_eq!(rt; four.sink.bytes(), INCREMENTED);
    assert_eq!(rt; status(&four), 0);
    assert!(rt; are_alike(&one, &four));
    Ok(())
}
