//! What adapters over real files keep of them: names and counts.

ghost use Rattle.pei_io.specs.declared.files.Which.{Which};
ghost use Rattle.std.specs.Prelude.{◌≡◌, ◌≢◌, ◌≤◌, ◌+◌, None, Some, IsTrue, ◌↔◌};
ghost use Rattle.pei_io.specs.Outside.{Rose, counted, LeavesOthers};
ghost use Rattle.pei_io.specs.Tally.{none_held, none_left, name_told, taken_told, faults_told};

use crate::files::Which;
use crate::text::Text;

/// The name under which a file was opened, how many bytes were read of it, and how many calls on it failed.
#[derive(Drop)]
pub(crate) struct Tally {
    name: Option<Text>,
    taken: u64,
    faults: u64,
}

impl Tally {
    /// That of a file on which no call was made.
    fn new() -> Tally
        ensures { (result.name ≡ None) × (result.taken ≡ 0) × (result.faults ≡ 0) }
    {
        Tally {
            name: None,
            taken: 0,
            faults: 0,
        }
    }

    /// The file was opened under this name, and nothing was read of it.
    fn open(&mut self, name: Text)
        ensures { (self.new.name ≡ Some name) × (self.new.taken ≡ 0) × (self.new.faults ≡ self.old.faults) }
    {
        self.name = Some(name);
        self.taken = 0;
    }

    /// So many bytes were read.
    fn take(&mut self, count: usize)
        ensures { (self.new.name ≡ self.old.name) × (self.new.taken ≡ counted (self.old.taken + count)) × (self.new.faults ≡ self.old.faults) }
    {
        self.taken = self.taken.saturating_add(count as u64);
    }

    /// A call failed.
    fn fail(&mut self)
        ensures same { (self.new.name ≡ self.old.name) × (self.new.taken ≡ self.old.taken) }
        ensures rose { Rose self.old.faults self.new.faults }
        ensures rising { self.old.faults ≤ self.new.faults }
    {
        self.faults = self.faults.saturating_add(1);
    }
}

/// The tallies of the four files.
#[derive(Drop)]
pub(crate) struct Tallies {
    program: Tally,
    machine: Tally,
    trace: Tally,
    kernel: Tally,
}

impl Tallies {
    /// No call was made.
    pub(crate) fn new() -> Tallies
        ensures unopened { (which : Which) → name_told result which ≡ None }
        ensures faultless { (which : Which) → faults_told result which ≡ 0 }
    {
        Tallies {
            program: Tally::new(),
            machine: Tally::new(),
            trace: Tally::new(),
            kernel: Tally::new(),
        }
    }

    /// Whether a file was opened.
    pub(crate) fn is_open(&self, which: Which) -> bool
        ensures { IsTrue result ↔ (name_told self.now which ≢ None) }
    {
        match which {
            Which::Program => self.program.name.is_some(),
            Which::Machine => self.machine.name.is_some(),
            Which::Trace => self.trace.name.is_some(),
            Which::Kernel => self.kernel.name.is_some(),
        }
    }

    /// A file was opened under this name.
    pub(crate) fn open(&mut self, which: Which, name: Text)
        requires { name_told self.old which ≡ None }
        ensures named { name_told self.new which ≡ Some name }
        ensures taken { taken_told self.new which ≡ taken_told self.old which }
        ensures faults { faults_told self.new which ≡ faults_told self.old which }
        ensures others { LeavesOthers none_held none_left name_told taken_told faults_told which self.old self.new }
    {
        match which {
            Which::Program => self.program.open(name),
            Which::Machine => self.machine.open(name),
            Which::Trace => self.trace.open(name),
            Which::Kernel => self.kernel.open(name),
        }
    }

    /// So many bytes of a file were read.
    pub(crate) fn take(&mut self, which: Which, count: usize)
        requires { name_told self.old which ≢ None }
        ensures counted { taken_told self.new which ≡ counted (taken_told self.old which + count) }
        ensures named { name_told self.new which ≡ name_told self.old which }
        ensures faults { faults_told self.new which ≡ faults_told self.old which }
        ensures others { LeavesOthers none_held none_left name_told taken_told faults_told which self.old self.new }
    {
        match which {
            Which::Program => self.program.take(count),
            Which::Machine => self.machine.take(count),
            Which::Trace => self.trace.take(count),
            Which::Kernel => self.kernel.take(count),
        }
    }

    /// A call on a file failed.
    pub(crate) fn fail(&mut self, which: Which)
        ensures rose { Rose (faults_told self.old which) (faults_told self.new which) }
        ensures rising { faults_told self.old which ≤ faults_told self.new which }
        ensures taken { taken_told self.new which ≡ taken_told self.old which }
        ensures named { name_told self.new which ≡ name_told self.old which }
        ensures others { LeavesOthers none_held none_left name_told taken_told faults_told which self.old self.new }
    {
        match which {
            Which::Program => self.program.fail(),
            Which::Machine => self.machine.fail(),
            Which::Trace => self.trace.fail(),
            Which::Kernel => self.kernel.fail(),
        }
    }
}
