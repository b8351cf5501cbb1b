//! The code of expressions and of addresses.

ghost use Rattle.std.specs.Prelude.{◌≡◌, ◌+◌, ◌*◌, ◌<◌, ◌≤◌, ◌^◌, ◌∷◌, [], OnOk, IfOk, length};
ghost use Rattle.kernel_text.specs.Depth.{depth, parts};
ghost use Rattle.kernel_text.specs.Views.{expression_of};
ghost use Rattle.pei_types.specs.Program.{HasRegisters};
ghost use Rattle.kernel_lang.specs.Code.{base_number, base_register, indexed as indexed_code, into as into_code, operand as operand_code, operation as operation_of, place_of, still};
ghost use Rattle.kernel_lang.specs.Emitted.{with_code};
ghost use Rattle.kernel_lang.specs.Homes.{FitsRegisters};

use crate::emitter::Emitter;
use crate::homes::Names;
use kernel_text::{Expr, Operator};
use pei_types::{Instr, OutOfMemory};

/// The register that an index and what is computed first use, and the one for the value behind an index.
pub(crate) const INDEX: u8 = 8;

pub(crate) const VALUE: u8 = 9;

/// The register that is never written. It has the core's number, which is 0.
const ZERO: u8 = 15;

/// Where an address is read: it is the sum of a register's value and a number.
#[derive(Clone, Copy, PartialEq, Eq, Debug)]
pub(crate) struct Address {
    pub register: u8,
    pub number: u64,
}

/// What an index counts: so many things, each of so many bytes, which is a power of two, from an address on.
#[derive(Clone, Copy, PartialEq, Eq, Debug)]
pub(crate) struct Row {
    pub base: u64,
    pub count: u64,
    pub shift: u64,
}

fn operation(op: Operator, rd: u8, ra: u8, rb: u8) -> Instr
    requires { (rd < 16) × (ra < 16) × (rb < 16) }
    ensures is { result ≡ operation_of op rd ra rb }
    ensures registers { HasRegisters result }
{
    match op {
        Operator::Add => Instr::Add { rd, ra, rb },
        Operator::Sub => Instr::Sub { rd, ra, rb },
        Operator::Mul => Instr::Mul { rd, ra, rb },
        Operator::And => Instr::And { rd, ra, rb },
        Operator::Or => Instr::Or { rd, ra, rb },
        Operator::Xor => Instr::Xor { rd, ra, rb },
    }
}

impl Emitter {
    /// The code of an expression into a register, with values in between in the registers from another one on.
    #[cycle(expressions)]
    pub(crate) fn into(
        &mut self,
        names: &Names<'_>,
        e: &Expr,
        rd: u8,
        t: u8,
    ) -> Result<(), OutOfMemory>
        requires names { FitsRegisters names.now }
        requires target { rd < 16 }
        requires registers { t + depth (expression_of e.now) ≤ 15 }
        requires room { length self.old.program.instrs + 8 * parts (expression_of e.now) ≤ 65536 }
        ensures code { OnOk result (self.new.program ≡ with_code self.old.program (into_code names.now self.old.waiting rd t (expression_of e.now))) }
        ensures length { OnOk result (length self.new.program.instrs + 4 ≤ length self.old.program.instrs + 8 * parts (expression_of e.now)) }
        ensures waiting { OnOk result (self.new.waiting ≡ still names.now self.old.waiting (expression_of e.now)) }
    {
        match e {
            Expr::Num { value } => self.emit(Instr::Li { rd, n: *value }),
            Expr::Name { name } => {
                let ra = names.register(name.as_str().as_bytes());
                self.emit(Instr::Addi { rd, ra, n: 0 })
            }
            Expr::Item { name, index } => {
                let home = names.home(name.as_str().as_bytes());
                let row = Row {
                    base: home.base,
                    count: home.size,
                    shift: 3,
                };
                let from = self.address(names, index, t, row)?;
                if home.array {
                    self.fence()?;
                }
                self.emit(Instr::Ld {
                    rd,
                    ra: from.register,
                    n: from.number,
                })
            }
            Expr::Group { inner } => self.into(names, inner, rd, t),
            Expr::Binary { op, left, right } => {
                let ra = self.operand(names, left, t)?;
                let rb = self.operand(names, right, t + 1)?;
                self.emit(operation(*op, rd, ra, rb))
            }
        }
    }

    /// The code of an expression, and the register in which its value then stands: that of a variable is read where it is.
    #[cycle(expressions)]
    pub(crate) fn operand(&mut self, names: &Names<'_>, e: &Expr, t: u8) -> Result<u8, OutOfMemory>
        requires names { FitsRegisters names.now }
        requires registers { t + depth (expression_of e.now) ≤ 15 }
        requires room { length self.old.program.instrs + 8 * parts (expression_of e.now) ≤ 65536 }
        ensures code { OnOk result (self.new.program ≡ with_code self.old.program (operand_code names.now self.old.waiting t (expression_of e.now))) }
        ensures length { OnOk result (length self.new.program.instrs + 4 ≤ length self.old.program.instrs + 8 * parts (expression_of e.now)) }
        ensures waiting { OnOk result (self.new.waiting ≡ still names.now self.old.waiting (expression_of e.now)) }
        ensures place { IfOk result (λ r. r ≡ place_of names.now t (expression_of e.now)) }
        ensures there { IfOk result (λ r. r < 16) }
    {
        if let Expr::Name { name } = e {
            return Ok(names.register(name.as_str().as_bytes()));
        }
        self.into(names, e, t, t)?;
        Ok(t)
    }

    /// The code of an index, and where the address of what it picks then stands: that of a number is known.
    #[cycle(expressions)]
    pub(crate) fn address(
        &mut self,
        names: &Names<'_>,
        index: &Expr,
        t: u8,
        row: Row,
    ) -> Result<Address, OutOfMemory>
        requires names { FitsRegisters names.now }
        requires registers { t + depth (expression_of index.now) ≤ 15 }
        requires room { length self.old.program.instrs + 8 * parts (expression_of index.now) ≤ 65536 }
        requires row { (1 ≤ row.count) × (row.count ≤ 4096) × (row.shift ≤ 6) × (row.base ≤ 262144) }
        ensures code { OnOk result (self.new.program ≡ with_code self.old.program (indexed_code names.now self.old.waiting t row.count row.shift (expression_of index.now))) }
        ensures length { OnOk result (length self.new.program.instrs + 2 ≤ length self.old.program.instrs + 8 * parts (expression_of index.now)) }
        ensures waiting { OnOk result (self.new.waiting ≡ still names.now self.old.waiting (expression_of index.now)) }
        ensures register { IfOk result (λ a. a.register ≡ base_register t (expression_of index.now)) }
        ensures number { IfOk result (λ a. a.number ≡ base_number row.base row.count (2 ^ row.shift) (expression_of index.now)) }
        ensures there { IfOk result (λ a. a.register < 16) }
    {
        if let Expr::Num { value } = index {
            return Ok(Address {
                register: ZERO,
                number: row.base + ((*value % row.count) << row.shift),
            });
        }
        let ra = self.operand(names, index, t)?;
        self.emit(Instr::Andi {
            rd: t,
            ra,
            n: row.count - 1,
        })?;
        self.emit(Instr::Shl {
            rd: t,
            ra: t,
            n: row.shift,
        })?;
        Ok(Address {
            register: t,
            number: row.base,
        })
    }
}
