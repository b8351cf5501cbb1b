//! What callers know of seats, bank by bank, and of all events from what each core knows of its own.
ghost use Rattle.shared_table.specs.Actives.{ActivesAreEntered};
ghost use Rattle.shared_table.specs.OwnLogs.{OwnLogsFollow};
ghost use Rattle.shared_table.specs.SeatLaws.{SeatsFollow};

/// A fact on an event of a bank, and the events before it in the bank's log.
pub trait LogFact {
    ghost use Rattle.std.specs.Prelude.{ℕ, List};
    ghost use Rattle.pei_types.specs.declared.events.Event.{Event};

    /// It holds of the bank's number, the events before, and the event.
    ghost holds: { ℕ → List Event → Event → Type 0 };
}

/// What becomes of the parts of a seat where it takes a slot and gives it back.
pub fn seats_follow()
    ensures { SeatsFollow }
{}

/// What each core knows of its own events, in what its seat has seen, holds of all events of a closed table.
pub fn own_logs_follow<F: LogFact>()
    ensures { OwnLogsFollow F.holds }
{}

/// The active PEIs of a log are those of its history, in the order of their Enter events.
pub fn actives_are_entered()
    ensures { ActivesAreEntered }
{}
