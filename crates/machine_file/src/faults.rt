//! Why a machine file is refused.

use crate::keys::Key;
use pei_io::Text;

/// The first fault of a machine file, in this order; those of a key come key by key.
#[derive(Drop)]
pub enum MachineFault {
    /// The bytes are not UTF-8, or no TOML document.
    BadToml,
    /// The first key, in the order of bytes, that is no key of a machine file.
    UnknownKey { key: Text },
    /// The file has to name the key, and does not.
    MissingKey { key: Key },
    /// The value at the key is no integer.
    NotInteger { key: Key },
    /// The number at the key is below its least or above its greatest, or there are more banks than sets in a private cache,
    /// sets in the last-level cache, or vaults.
    OutOfLimits { key: Key },
    /// The number at the key is no power of two, where it is to be one.
    NotPowerOfTwo { key: Key },
    /// The placement is not the string "monitor", "host" or "memory".
    BadPolicy,
    /// Memory ran out; this says nothing of the file.
    OutOfMemory,
}
