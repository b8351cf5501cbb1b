//! Each call at each edge: an empty set, a full set, one way, the last set, a block that is not there.

use crate::Llc;
use pei_types::{Block, BlockNo, Mark};
use std::test::Fail;

/// A block of which each word has this value.
fn filled(value: u64) -> Block {
    Block([value; 8])
}

#[test]
fn lines_keep_their_slots(rt: HostRuntime) -> Result<(), Fail> {
    let mut cache = Llc::make(rt.alloc(), 1, 2)?;
    assert_eq!(rt;
        (cache.mark(BlockNo(64)), cache.room_for(BlockNo(64))),
        (Mark::Absent, None)
    );
    cache.install(BlockNo(64), &filled(7));
    assert_eq!(rt; cache.room_for(BlockNo(66)), None);
    cache.install(BlockNo(65), &filled(9));
    let slots = (cache.slot_of(BlockNo(64)), cache.slot_of(BlockNo(65)));
    assert_eq!(rt;
        (slots.0 < 2, slots.1 < 2, slots.0 == slots.1),
        (true, true, false)
    );
    assert_eq!(rt;
        (cache.room_for(BlockNo(66)), cache.room_for(BlockNo(64))),
        (Some(BlockNo(64)), None)
    );
    cache.touch(BlockNo(64));
    assert_eq!(rt; cache.room_for(BlockNo(66)), Some(BlockNo(65)));
    assert_eq!(rt;
        (cache.slot_of(BlockNo(64)), cache.slot_of(BlockNo(65))),
        slots
    );
    Ok(())
}

#[test]
fn marks_change_in_place(rt: HostRuntime) -> Result<(), Fail> {
    let mut cache = Llc::make(rt.alloc(), 2, 2)?;
    // 1 and 3 lie in the last set
    cache.install(BlockNo(1), &filled(1));
    cache.install(BlockNo(3), &filled(3));
    cache.take_back(BlockNo(1), &filled(8));
    assert_eq!(rt;
        (cache.mark(BlockNo(1)), cache.line(BlockNo(1))),
        (Mark::Dirty, filled(8))
    );
    assert_eq!(rt;
        (cache.mark(BlockNo(3)), cache.line(BlockNo(3))),
        (Mark::Clean, filled(3))
    );
    assert_eq!(rt; cache.room_for(BlockNo(5)), Some(BlockNo(1)));
    assert_eq!(rt;
        (cache.clean(BlockNo(1)), cache.mark(BlockNo(1))),
        (filled(8), Mark::Clean)
    );
    assert_eq!(rt; cache.room_for(BlockNo(5)), Some(BlockNo(1)));
    assert_eq!(rt;
        (cache.mark(BlockNo(0)), cache.room_for(BlockNo(0))),
        (Mark::Absent, None)
    );
    Ok(())
}

#[test]
fn four_accesses_of_two_cores(rt: HostRuntime) -> Result<(), Fail> {
    let mut cache = Llc::make(rt.alloc(), 1, 2)?;
    // core 0 stores to 64
    cache.install(BlockNo(64), &filled(0));
    cache.touch(BlockNo(64));
    // core 1 loads 64, and then 65
    cache.take_back(BlockNo(64), &filled(5));
    cache.touch(BlockNo(64));
    cache.install(BlockNo(65), &filled(0));
    cache.touch(BlockNo(65));
    // core 1 loads 66
    assert_eq!(rt; cache.room_for(BlockNo(66)), Some(BlockNo(64)));
    assert_eq!(rt; cache.clean(BlockNo(64)), filled(5));
    cache.remove(BlockNo(64));
    assert_eq!(rt; cache.room_for(BlockNo(66)), None);
    cache.install(BlockNo(66), &filled(0));
    cache.touch(BlockNo(66));
    assert_eq!(rt;
        (cache.room_for(BlockNo(64)), cache.mark(BlockNo(64))),
        (Some(BlockNo(65)), Mark::Absent)
    );
    Ok(())
}

#[test]
fn one_way_takes_one_line(rt: HostRuntime) -> Result<(), Fail> {
    let mut cache = Llc::make(rt.alloc(), 1, 1)?;
    cache.install(BlockNo(4), &filled(4));
    assert_eq!(rt; cache.room_for(BlockNo(5)), Some(BlockNo(4)));
    cache.remove(BlockNo(4));
    assert_eq!(rt;
        (cache.mark(BlockNo(4)), cache.room_for(BlockNo(5))),
        (Mark::Absent, None)
    );
    cache.install(BlockNo(5), &filled(6));
    assert_eq!(rt;
        (cache.slot_of(BlockNo(5)), cache.line(BlockNo(5))),
        (0, filled(6))
    );
    Ok(())
}
