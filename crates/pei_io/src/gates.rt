//! A gate that the threads of a run pass, so that tests can hold them at a point.

/// What each core's thread calls at its two points: 0 before its first wait for a slot, and 1 once it has given back its
/// first event. It changes nothing of the machine, and no promise depends on it.
pub trait Gate: Sync {
    /// The thread of this core, of 0 to 7, is at this point, of 0 and 1.
    fn pass(&self, core: u8, point: u8);
}

/// A gate that holds nobody.
#[derive(Drop)]
pub struct FreeGate;

impl Gate for FreeGate {
    fn pass(&self, core: u8, point: u8) {
        let _ = (core, point);
    }
}
