//! An entry of the monitor.

use std::marker::Model;

/// An entry: a partial tag, with a flag that says that a placement made it and that none has hit it since.
#[derive(Clone, Copy)]
pub(crate) struct Entry {
    pub(crate) tag: u32,
    pub(crate) flag: bool,
}

impl Model for Entry {
    ghost use Rattle.pei_types.specs.Monitor.{MonitorEntry};

    ghost Value = { MonitorEntry };

    ghost view = { λ e. record { tag = e.tag; flag = e.flag } };

    ghost inverse = { λ m. record { tag = m.tag; flag = m.flag } };
}
