//! The variables of a kernel, in the order in which they are first set.

ghost use Rattle.std.specs.Prelude.{◌≡◌, OnOk};
ghost use Rattle.kernel_text.specs.Sound.{behind_statements};
ghost use Rattle.kernel_text.specs.Trees.{done};
ghost use Rattle.kernel_text.specs.Views.{with_statement, with_statements};

use crate::homes::Names;
use kernel_text::Stmt;
use pei_types::OutOfMemory;

impl<'a> Names<'a> {
    /// Gives registers to the variables that statements set.
    #[cycle(variables)]
    pub(crate) fn set_all(&mut self, statements: &'a [Stmt]) -> Result<(), OutOfMemory>
        ensures { OnOk result (self.new ≡ record self.old { variables = behind_statements self.old.variables (with_statements statements.now done) }) }
    {
        for s in statements {
            self.set_by(s)?;
        }
        Ok(())
    }

    #[cycle(variables)]
    fn set_by(&mut self, s: &'a Stmt) -> Result<(), OutOfMemory>
        ensures { OnOk result (self.new ≡ record self.old { variables = behind_statements self.old.variables (with_statement s.now done) }) }
    {
        match s {
            Stmt::Assign { name, .. } => self.set(name.as_str().as_bytes()),
            Stmt::Probe { first, second, .. } | Stmt::Hist { first, second, .. } => {
                self.set(first.as_str().as_bytes())?;
                self.set(second.as_str().as_bytes())
            }
            Stmt::Dot { first, .. } => self.set(first.as_str().as_bytes()),
            Stmt::Repeat { name, body, .. } => {
                self.set(name.as_str().as_bytes())?;
                self.set_all(body.as_slice())
            }
            Stmt::Store { .. } | Stmt::Print { .. } | Stmt::Inc { .. } | Stmt::Min { .. } => Ok(()),
        }
    }
}
