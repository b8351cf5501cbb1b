//! Registers, and which names are labels.

ghost use Rattle.std.specs.Prelude.{◌≡◌};
ghost use Rattle.asm_statements.specs.Mnemonics.{register_of, is_label};

use crate::tokens::byte_at;

/// The number of the register that a name is, 0 to 15 for `r0` to `r15`, or `None` where it is none.
#[tactic(auto, unfolding(crate::specs::Mnemonics::register_names))]
pub fn register_of(name: &[u8]) -> Option<u8>
    ensures { result ≡ register_of name.now }
{
    match name {
        b"r0" => Some(0),
        b"r1" => Some(1),
        b"r2" => Some(2),
        b"r3" => Some(3),
        b"r4" => Some(4),
        b"r5" => Some(5),
        b"r6" => Some(6),
        b"r7" => Some(7),
        b"r8" => Some(8),
        b"r9" => Some(9),
        b"r10" => Some(10),
        b"r11" => Some(11),
        b"r12" => Some(12),
        b"r13" => Some(13),
        b"r14" => Some(14),
        b"r15" => Some(15),
        _ => None,
    }
}

/// Whether a name can be a label: it does not begin with a dot, and is no register.
pub fn is_label(name: &[u8]) -> bool
    ensures { result ≡ is_label name.now }
{
    byte_at(name, 0) != b'.' && register_of(name).is_none()
}
