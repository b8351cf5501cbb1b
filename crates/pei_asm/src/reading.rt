//! The lines of a text, one after another.

ghost use Rattle.std.specs.Prelude.{◌≡◌, ◌≢◌, ◌<◌, ◌≤◌, ◌∷◌, [], None, Some, length, option_map, IfOk, IfErr, IfSome, not, ◌==◌};
ghost use Rattle.std.specs.List.{prefix_len};
ghost use Rattle.std.specs.Str.{byte};
ghost use Rattle.pei_asm.specs.Faults.{first_line_fault};
ghost use Rattle.pei_asm.specs.Meaning.{lines_read, lines_of};
ghost use Rattle.pei_asm.specs.Stored.{IsStored, lines_left, stored};
ghost use Rattle.pei_asm.specs.declared.faults.AsmKind.TheVariants as kind;

use crate::faults::{AsmFault, out_of_memory};
use crate::lines::Lines;
use crate::verdicts::read_line;
use std::alloc::Global;

/// How many bytes stand before the first line feed, or at all where there is none.
fn line_len(bytes: &[u8]) -> usize
    ensures len { result ≡ prefix_len (λ b. not (b == byte "\n")) bytes.now }
    ensures within { result ≤ length bytes.now }
{
    let mut n = 0;
    while n < bytes.len() && bytes[n] != b'\n' {
        n += 1;
    }
    n
}

/// The first line, and what stands behind its line feed, if it has one.
fn split_line(bytes: &[u8]) -> (&[u8], Option<&[u8]>)
    ensures lines { lines_of bytes.now ≡ result.0.now ∷ lines_left (option_map (λ b. b.now) result.1) }
    ensures line { length result.0.now ≤ length bytes.now }
    ensures rest { IfSome result.1 (λ b. length b.now < length bytes.now) }
{
    let len = line_len(bytes);
    if len < bytes.len() {
        (&bytes[..len], Some(&bytes[len + 1..]))
    } else {
        (bytes, None)
    }
}

/// The lines of a text, or the fault of the first that has one.
pub(crate) fn read_lines<'a>(alloc: Global, text: &'a [u8]) -> Result<Lines<'a>, AsmFault>
    requires { length text.now < 4294967295 }
    ensures fault { IfErr result (λ f. f.kind ≢ kind.OutOfMemory → first_line_fault [] 1 (lines_of text.now) ≡ Some f) }
    ensures memory { IfErr result (λ f. f.kind ≡ kind.OutOfMemory → (f.line ≡ 0) × (f.column ≡ 0)) }
    ensures none { IfOk result (λ l. first_line_fault [] 1 (lines_of text.now) ≡ None) }
    ensures lines { IfOk result (λ l. stored l ≡ lines_read text.now) }
    ensures stored { IfOk result IsStored }
    ensures count { IfOk result (λ l. length l.lines.items ≤ 4294967295) }
{
    let mut lines = Lines::make(alloc);
    let mut number = 0;
    let mut rest = Some(text);
    while let Some(bytes) = rest {
        number += 1;
        let (line, after) = split_line(bytes);
        let line = match read_line(alloc, number, &lines, line) {
            Ok(line) => line,
            Err(fault) => return Err(fault),
        };
        let Ok(()) = lines.push(line) else {
            return Err(out_of_memory());
        };
        rest = after;
    }
    Ok(lines)
}
