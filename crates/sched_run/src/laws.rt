//! What legality comes to, clause by clause.

ghost use Rattle.std.specs.Prelude.{List};
ghost use Rattle.pei_types.specs.declared.events.Event.{Event};
ghost use Rattle.pei_types.specs.declared.machines.MachineSpec.{MachineSpec};
ghost use Rattle.pei_types.specs.Legal.{Legal};
ghost use Rattle.pei_types.specs.Program.{Contents, Listing};
ghost use Rattle.sched_run.specs.ElevenClauses.{ElevenClauses};

/// A legal journal meets each of the eleven clauses by itself.
pub fn legal_journals_meet_clauses()
    ensures { (p : Listing) (m : MachineSpec) (image : Contents) (journal : List Event) → Legal p m image journal → ElevenClauses p m image journal }
{}
