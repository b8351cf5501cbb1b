//! Each call once, and the last block.

use crate::Vaults;
use pei_types::{Block, BlockNo, Image, Op, Operands, Reply};
use std::test::Fail;

#[test]
fn blocks_are_apart(rt: HostRuntime) -> Result<(), Fail> {
    let mut image = Image::make(rt.alloc(), 3)?;
    image.set_word(64 + 8, 7);
    image.set_word(2 * 64 + 56, 9);
    let mut vaults = Vaults::make(rt.alloc(), &image, 2)?;
    assert_eq!(rt;
        (
            vaults.vault_of(BlockNo(0)),
            vaults.vault_of(BlockNo(1)),
            vaults.vault_of(BlockNo(2))
        ),
        (0, 1, 0)
    );
    assert_eq!(rt; vaults.read(BlockNo(0)), Block([0; 8]));
    assert_eq!(rt; vaults.read(BlockNo(1)), Block([0, 7, 0, 0, 0, 0, 0, 0]));
    assert_eq!(rt; vaults.read(BlockNo(2)), Block([0, 0, 0, 0, 0, 0, 0, 9]));
    vaults.write(BlockNo(0), &Block([5; 8]));
    let reply = vaults.act(BlockNo(1), Op::Inc { word: 1 }, &Operands([0; 4]));
    assert_eq!(rt;
        reply,
        Reply {
            words: [0, 0],
            len: 0
        }
    );
    assert_eq!(rt; vaults.read(BlockNo(1)), Block([0, 8, 0, 0, 0, 0, 0, 0]));
    vaults.act(BlockNo(2), Op::Min { word: 7 }, &Operands([3, 0, 0, 0]));
    assert_eq!(rt; vaults.read(BlockNo(2)), Block([0, 0, 0, 0, 0, 0, 0, 3]));
    assert_eq!(rt; vaults.read(BlockNo(0)), Block([5; 8]));
    Ok(())
}
