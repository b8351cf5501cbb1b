//! Each call at each edge: an empty set, a full set, one way, the last set, a block that is not there.

use crate::Monitor;
use pei_types::{BlockNo, Place};
use std::test::Fail;

#[test]
fn first_hits_are_no_locality(rt: HostRuntime) -> Result<(), Fail> {
    let mut monitor = Monitor::make(rt.alloc(), 2, 2)?;
    // an access makes an entry with the flag clear
    monitor.llc_access(BlockNo(65));
    assert_eq!(rt;
        (monitor.place(BlockNo(65)), monitor.place(BlockNo(65))),
        (Place::Host, Place::Host)
    );
    // a placement makes one with the flag set, which the next clears
    assert_eq!(rt;
        (monitor.place(BlockNo(67)), monitor.place(BlockNo(67))),
        (Place::Memory, Place::Memory)
    );
    assert_eq!(rt; monitor.place(BlockNo(67)), Place::Host);
    // and an access leaves it as it is
    assert_eq!(rt; monitor.place(BlockNo(64)), Place::Memory);
    monitor.llc_access(BlockNo(64));
    assert_eq!(rt;
        (monitor.place(BlockNo(64)), monitor.place(BlockNo(64))),
        (Place::Memory, Place::Host)
    );
    Ok(())
}

#[test]
fn the_last_entry_is_dropped(rt: HostRuntime) -> Result<(), Fail> {
    let mut monitor = Monitor::make(rt.alloc(), 1, 2)?;
    monitor.llc_access(BlockNo(1));
    monitor.llc_access(BlockNo(2));
    // 1 goes to the front, so that 3 drops 2
    monitor.llc_access(BlockNo(1));
    monitor.llc_access(BlockNo(3));
    assert_eq!(rt;
        (monitor.place(BlockNo(3)), monitor.place(BlockNo(1))),
        (Place::Host, Place::Host)
    );
    assert_eq!(rt; monitor.place(BlockNo(2)), Place::Memory);
    // a placement at the host moves nothing: 1 was last, and 2 has dropped it
    assert_eq!(rt;
        (monitor.place(BlockNo(3)), monitor.place(BlockNo(1))),
        (Place::Host, Place::Memory)
    );
    Ok(())
}

#[test]
fn one_way_has_one_entry(rt: HostRuntime) -> Result<(), Fail> {
    let mut monitor = Monitor::make(rt.alloc(), 1, 1)?;
    assert_eq!(rt;
        (monitor.place(BlockNo(4)), monitor.place(BlockNo(5))),
        (Place::Memory, Place::Memory)
    );
    assert_eq!(rt;
        (monitor.place(BlockNo(5)), monitor.place(BlockNo(5))),
        (Place::Memory, Place::Host)
    );
    // 4097, which is 4 * 1024 + 1, has the partial tag of 5
    assert_eq!(rt; monitor.place(BlockNo(4097)), Place::Host);
    Ok(())
}
