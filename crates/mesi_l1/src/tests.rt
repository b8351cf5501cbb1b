//! Each call at each edge: an empty set, a full set, one way, the last set, a block that is not there.

use crate::L1;
use pei_types::{Block, BlockNo, Letter};
use std::test::Fail;

/// A block of which each word has this value.
fn filled(value: u64) -> Block {
    Block([value; 8])
}

#[test]
fn lines_keep_their_slots(rt: HostRuntime) -> Result<(), Fail> {
    let mut cache = L1::make(rt.alloc(), 1, 2)?;
    assert_eq!(rt;
        (cache.letter(BlockNo(64)), cache.room_for(BlockNo(64))),
        (Letter::I, None)
    );
    cache.install(BlockNo(64), Letter::E, &filled(7));
    assert_eq!(rt; cache.room_for(BlockNo(66)), None);
    cache.install(BlockNo(65), Letter::S, &filled(9));
    let slots = (cache.slot_of(BlockNo(64)), cache.slot_of(BlockNo(65)));
    assert_eq!(rt;
        (slots.0 < 2, slots.1 < 2, slots.0 == slots.1),
        (true, true, false)
    );
    assert_eq!(rt;
        (cache.room_for(BlockNo(66)), cache.room_for(BlockNo(64))),
        (Some(BlockNo(64)), None)
    );
    assert_eq!(rt; cache.hit_load(BlockNo(64), 0), 7);
    assert_eq!(rt; cache.room_for(BlockNo(66)), Some(BlockNo(65)));
    assert_eq!(rt;
        (cache.slot_of(BlockNo(64)), cache.slot_of(BlockNo(65))),
        slots
    );
    Ok(())
}

#[test]
fn letters_change(rt: HostRuntime) -> Result<(), Fail> {
    let mut cache = L1::make(rt.alloc(), 2, 2)?;
    // 1 and 3 lie in the last set
    cache.install(BlockNo(1), Letter::E, &filled(1));
    cache.install(BlockNo(3), Letter::M, &filled(3));
    cache.hit_store(BlockNo(1), 7, 5);
    let changed = Block([1, 1, 1, 1, 1, 1, 1, 5]);
    assert_eq!(rt;
        (cache.letter(BlockNo(1)), cache.line(BlockNo(1))),
        (Letter::M, changed)
    );
    assert_eq!(rt; cache.room_for(BlockNo(5)), Some(BlockNo(3)));
    assert_eq!(rt; cache.downgrade(BlockNo(3)), (Letter::M, filled(3)));
    assert_eq!(rt;
        (cache.letter(BlockNo(3)), cache.room_for(BlockNo(5))),
        (Letter::S, Some(BlockNo(3)))
    );
    cache.raise(BlockNo(3));
    assert_eq!(rt;
        (cache.letter(BlockNo(3)), cache.room_for(BlockNo(5))),
        (Letter::M, Some(BlockNo(1)))
    );
    cache.hit_write(BlockNo(1), &filled(8));
    assert_eq!(rt;
        (cache.hit_read(BlockNo(1)), cache.room_for(BlockNo(5))),
        (filled(8), Some(BlockNo(3)))
    );
    assert_eq!(rt;
        (cache.letter(BlockNo(0)), cache.room_for(BlockNo(0))),
        (Letter::I, None)
    );
    Ok(())
}

#[test]
fn one_way_takes_one_line(rt: HostRuntime) -> Result<(), Fail> {
    let mut cache = L1::make(rt.alloc(), 1, 1)?;
    cache.install(BlockNo(4), Letter::M, &filled(4));
    assert_eq!(rt; cache.room_for(BlockNo(5)), Some(BlockNo(4)));
    assert_eq!(rt; cache.drop_line(BlockNo(4)), (Letter::M, filled(4)));
    assert_eq!(rt;
        (cache.letter(BlockNo(4)), cache.room_for(BlockNo(5))),
        (Letter::I, None)
    );
    cache.install(BlockNo(5), Letter::S, &filled(6));
    assert_eq!(rt;
        (cache.slot_of(BlockNo(5)), cache.line(BlockNo(5))),
        (0, filled(6))
    );
    Ok(())
}
