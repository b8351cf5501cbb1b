//! Each call once, on two sets of two ways.

use crate::SetLists;
use std::test::Fail;

#[test]
fn keys_keep_their_slots(rt: HostRuntime) -> Result<(), Fail> {
    let mut sets = SetLists::make(rt.alloc(), 2, 2)?;
    assert_eq!(rt;
        (sets.home(7), sets.find(1, 7), sets.is_full(1)),
        (1, None, false)
    );
    let first = sets.insert(1, 7);
    let second = sets.insert(1, 9);
    assert_eq!(rt;
        (first >= 2, second >= 2, first == second),
        (true, true, false)
    );
    assert_eq!(rt;
        (sets.is_full(1), sets.victim(1), sets.victim(0)),
        (true, Some(first), None)
    );
    sets.touch(1, first);
    assert_eq!(rt;
        (sets.victim(1), sets.find(1, 7)),
        (Some(second), Some(first))
    );
    assert_eq!(rt;
        (sets.bring_front(1, 9), sets.victim(1)),
        (second, Some(first))
    );
    assert_eq!(rt; (sets.take_out(1, 7), sets.place(1, 9)), (first, second));
    sets.remove(1, second);
    assert_eq!(rt; (sets.find(1, 9), sets.is_full(1)), (None, false));
    Ok(())
}
