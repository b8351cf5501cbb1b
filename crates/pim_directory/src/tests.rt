//! Worked examples.

use crate::{PlainDirectory, announce_word, grant_word, release_word};
use pei_types::Mode;

#[test]
fn words_change(rt: HostRuntime) {
    assert_eq!(rt; announce_word(0), 65_536);
    assert_eq!(rt; announce_word(65_536 + 256), 131_328);
    assert_eq!(rt; grant_word(0, Mode::Reader), Some(1));
    assert_eq!(rt; grant_word(7, Mode::Reader), Some(8));
    assert_eq!(rt; grant_word(65_536, Mode::Writer), Some(256));
    assert_eq!(rt; grant_word(131_072, Mode::Writer), Some(65_792));
    assert_eq!(rt; release_word(8, Mode::Reader), 7);
    assert_eq!(rt; release_word(65_792, Mode::Writer), 65_536);
}

#[test]
fn grants_are_refused(rt: HostRuntime) {
    // a writer waits; a writer holds; a reader holds; another writer holds
    assert_eq!(rt; grant_word(65_536, Mode::Reader), None);
    assert_eq!(rt; grant_word(256, Mode::Reader), None);
    assert_eq!(rt; grant_word(65_537, Mode::Writer), None);
    assert_eq!(rt; grant_word(65_792, Mode::Writer), None);
}

#[test]
fn entries_are_apart(rt: HostRuntime) {
    let Ok(mut directory) = PlainDirectory::make(rt.alloc(), 2) else {
        panic!(rt; "there is memory for two entries");
    };
    directory.announce(1);
    if !directory.try_grant(1, Mode::Writer) {
        panic!(rt; "nobody holds the entry");
    }
    assert_eq!(rt; directory.word(1), 256);
    directory.release(1, Mode::Writer);
    assert_eq!(rt; (directory.word(0), directory.word(1)), (0, 0));
}
