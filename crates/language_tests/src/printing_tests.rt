//! Canonical texts.

ghost use Rattle.std.specs.Prelude.{◌<◌, length};

use pei_asm::evidence::spelled_programs_are_printable;
use pei_asm::{assemble, print};
use pei_io::Text;
use std::alloc::Global;
use std::test::Fail;

const WHOLE: &[u8] =
    b"# words\n\t.data 0x40, 1, -1 ; two\r\n.stats\n.sum 64,2\n.show 64, 0\n.entry *, last\n.entry 3, first\n\
first:\nsecond: li r1,-0x10\nbne r1, r0, second\npmin r1, 8, r2\nphist r2, r1, 0, r4\njmp last\nhalt\nlast :";

const AGAIN: &[u8] =
    b".entry 3, a\n.entry *, z\na: li r1, 18446744073709551600\nbne r1, r0, a\npmin r1, 8, r2\n\
phist r2, r1, 0, r4\njmp z\nhalt\nz:\n.stats\n.data 64, 1, 18446744073709551615\n.sum 64, 2\n.show 64, 0";

const CANONICAL: &str =
    ".entry *, L6\n.entry 3, L0\n.data 64, 1, 18446744073709551615\n.sum 64, 2\n.show 64, 0\n.stats\n\
L0: li r1, 18446744073709551600\nbne r1, r0, L0\npmin r1, 8, r2\nphist r2, r1, 0, r4\njmp L6\nhalt\nL6:\n";

/// The canonical text of the program that a text spells.
fn print_again(alloc: Global, text: &[u8]) -> Result<Text, Fail>
    requires { length text.now < 4294967295 }
{
    spelled_programs_are_printable();
    let program = assemble(alloc, text)?;
    Ok(print(alloc, &program)?)
}

#[test]
fn prints_everything(rt: HostRuntime) -> Result<(), Fail> {
    assert_eq!(rt; print_again(rt.alloc(), WHOLE)?.as_str(), CANONICAL);
    Ok(())
}

#[test]
fn prints_alike(rt: HostRuntime) -> Result<(), Fail> {
    assert_eq!(rt; print_again(rt.alloc(), AGAIN)?.as_str(), CANONICAL);
    Ok(())
}
