//! Why a command was refused.

ghost use Rattle.std.specs.Prelude.{◌≡◌, Some, option_map};
ghost use Rattle.pei_io.specs.Outside.{Writes};
ghost use Rattle.pei_cli.specs.FaultLines.{fault_of_kernel, fault_of_loading, fault_of_machine, fault_of_text, status_of_fault, fault_line, load_line, machine_kind, machine_line, told_key, asm_word, kernel_word, which_word};

use crate::writing::write_pieces;
use itoa::Buffer;
use kernel_text::{KernelFault, KernelKind};
use machine_file::MachineFault;
use pei_asm::{AsmFault, AsmKind};
use pei_io::{Failed, Sink, Which};
use pei_loader::LoadFault;

/// Why a command was refused.
#[derive(Drop)]
pub enum Fault {
    /// The words name no command.
    Usage,
    /// The program's text is refused, and where.
    ProgramBad(AsmFault),
    /// The kernel's text is refused, and where.
    KernelBad(KernelFault),
    /// The program can't be loaded.
    LoadBad(LoadFault),
    /// The machine's file is refused.
    MachineBad(MachineFault),
    /// The trace's file has a bad line; the first line is line 1.
    TraceBad { line: u32 },
    /// A file has more bytes than it may have.
    InputTooLong { which: Which },
    /// A file could not be opened or read.
    ReadFault { which: Which },
    /// The output could not be written; a front of it was.
    WriteFault,
    /// Memory ran out. This says nothing of the inputs.
    OutOfMemory,
}

/// The fault of a command whose program's text has a fault. Want of memory is told as such.
pub(crate) fn text_fault(fault: AsmFault) -> Fault
    ensures { result ≡ fault_of_text fault }
{
    match fault.kind {
        AsmKind::OutOfMemory => Fault::OutOfMemory,
        _ => Fault::ProgramBad(fault),
    }
}

/// The fault of a command whose kernel's text has a fault. Want of memory is told as such.
pub(crate) fn kernel_fault(fault: KernelFault) -> Fault
    ensures { result ≡ fault_of_kernel fault }
{
    match fault.kind {
        KernelKind::OutOfMemory => Fault::OutOfMemory,
        _ => Fault::KernelBad(fault),
    }
}

/// The fault of a command whose program was not loaded. Want of memory is told as such.
pub(crate) fn load_fault(fault: LoadFault) -> Fault
    ensures { result ≡ fault_of_loading fault }
{
    match fault {
        LoadFault::OutOfMemory => Fault::OutOfMemory,
        _ => Fault::LoadBad(fault),
    }
}

/// The fault of a command whose machine's file has a fault. Want of memory is told as such.
pub(crate) fn machine_fault(fault: MachineFault) -> Fault
    ensures { result ≡ fault_of_machine fault }
{
    match fault {
        MachineFault::OutOfMemory => Fault::OutOfMemory,
        fault => Fault::MachineBad(fault),
    }
}

/// The status with which the program ends at a fault.
pub fn status_of(fault: &Fault) -> u8
    ensures { result ≡ status_of_fault fault.now }
{
    match fault {
        Fault::Usage => 2,
        Fault::ProgramBad(_) | Fault::LoadBad(_) => 3,
        Fault::MachineBad(_) => 4,
        Fault::TraceBad { .. } => 11,
        Fault::InputTooLong { .. } => 13,
        Fault::ReadFault { .. } => 8,
        Fault::KernelBad(_) => 15,
        Fault::WriteFault => 9,
        Fault::OutOfMemory => 10,
    }
}

/// Writes the line of a fault. After a failure a front of it was written.
pub fn write_fault<K: Sink>(fault: &Fault, sink: &mut K) -> Result<(), Failed>
    ensures { Writes (fault_line fault.now) (K.written sink.old) (K.written sink.new) (K.faults sink.old) (K.faults sink.new) result }
{
    match fault {
        Fault::Usage => write_pieces(
            sink,
            &[b"usage: peisim asm or sched or run or check or gen\n"],
        ),
        Fault::ProgramBad(fault) => write_program_bad(fault, sink),
        Fault::KernelBad(fault) => write_kernel_bad(fault, sink),
        Fault::LoadBad(fault) => write_load_bad(fault, sink),
        Fault::MachineBad(fault) => write_machine_bad(fault, sink),
        Fault::TraceBad { line } => write_trace_bad(*line, sink),
        Fault::InputTooLong { which } => write_too_long(*which, sink),
        Fault::ReadFault { which } => {
            write_pieces(sink, &[b"read fault ", which_word(*which), b"\n"])
        }
        Fault::WriteFault => write_pieces(sink, &[b"write fault\n"]),
        Fault::OutOfMemory => write_pieces(sink, &[b"out of memory\n"]),
    }
}

/// Writes the line of a file that is too long.
fn write_too_long<K: Sink>(which: Which, sink: &mut K) -> Result<(), Failed>
    ensures { Writes (fault_line (Fault.InputTooLong which)) (K.written sink.old) (K.written sink.new) (K.faults sink.old) (K.faults sink.new) result }
{
    write_pieces(sink, &[b"input too long ", which_word(which), b"\n"])
}

/// Writes the line of a trace's bad line.
fn write_trace_bad<K: Sink>(line: u32, sink: &mut K) -> Result<(), Failed>
    ensures { Writes (fault_line (Fault.TraceBad line)) (K.written sink.old) (K.written sink.new) (K.faults sink.old) (K.faults sink.new) result }
{
    let mut buffer = Buffer::new();
    let number = buffer.format(line).as_bytes();
    write_pieces(sink, &[b"trace bad ", number, b"\n"])
}

/// Writes the line of a fault of a program's text.
fn write_program_bad<K: Sink>(fault: &AsmFault, sink: &mut K) -> Result<(), Failed>
    ensures { Writes (fault_line (Fault.ProgramBad fault.now)) (K.written sink.old) (K.written sink.new) (K.faults sink.old) (K.faults sink.new) result }
{
    let mut line = Buffer::new();
    let mut column = Buffer::new();
    write_pieces(
        sink,
        &[
            b"program bad ",
            line.format(fault.line).as_bytes(),
            b":",
            column.format(fault.column).as_bytes(),
            b" ",
            asm_word(fault.kind),
            b"\n",
        ],
    )
}

/// Writes the line of a fault of a kernel's text.
fn write_kernel_bad<K: Sink>(fault: &KernelFault, sink: &mut K) -> Result<(), Failed>
    ensures { Writes (fault_line (Fault.KernelBad fault.now)) (K.written sink.old) (K.written sink.new) (K.faults sink.old) (K.faults sink.new) result }
{
    let mut line = Buffer::new();
    let mut column = Buffer::new();
    write_pieces(
        sink,
        &[
            b"kernel bad ",
            line.format(fault.line).as_bytes(),
            b":",
            column.format(fault.column).as_bytes(),
            b" ",
            kernel_word(fault.kind),
            b"\n",
        ],
    )
}

/// The word for what is wrong with a kernel's text.
fn kernel_word(kind: KernelKind) -> &'static [u8]
    ensures { result.now ≡ kernel_word kind }
{
    match kind {
        KernelKind::BadChar => b"BadChar",
        KernelKind::NumberTooLarge => b"NumberTooLarge",
        KernelKind::Syntax => b"Syntax",
        KernelKind::TooNested => b"TooNested",
        KernelKind::DoubleName => b"DoubleName",
        KernelKind::Unknown => b"Unknown",
        KernelKind::WrongKind => b"WrongKind",
        KernelKind::LoopVariable => b"LoopVariable",
        KernelKind::TooManyVariables => b"TooManyVariables",
        KernelKind::BadSize => b"BadSize",
        KernelKind::TooManyValues => b"TooManyValues",
        KernelKind::TooManyWords => b"TooManyWords",
        KernelKind::TooDeep => b"TooDeep",
        KernelKind::TooLong => b"TooLong",
        KernelKind::OutOfMemory => b"OutOfMemory",
    }
}

/// The word for what is wrong with a program's text.
fn asm_word(kind: AsmKind) -> &'static [u8]
    ensures { result.now ≡ asm_word kind }
{
    match kind {
        AsmKind::NotUtf8 => b"NotUtf8",
        AsmKind::BadChar => b"BadChar",
        AsmKind::DoubleLabel => b"DoubleLabel",
        AsmKind::UnknownName => b"UnknownName",
        AsmKind::WrongOperands => b"WrongOperands",
        AsmKind::NumberTooLarge => b"NumberTooLarge",
        AsmKind::RegisterRange => b"RegisterRange",
        AsmKind::TooManyInstructions => b"TooManyInstructions",
        AsmKind::DoubleEntry => b"DoubleEntry",
        AsmKind::UnknownLabel => b"UnknownLabel",
        AsmKind::OutOfMemory => b"OutOfMemory",
    }
}

/// Writes the line of a fault of loading.
fn write_load_bad<K: Sink>(fault: &LoadFault, sink: &mut K) -> Result<(), Failed>
    ensures { Writes (fault_line (Fault.LoadBad fault.now)) (K.written sink.old) (K.written sink.new) (K.faults sink.old) (K.faults sink.new) result }
{
    match fault {
        LoadFault::DataMisaligned { addr } => write_load_fault(b"DataMisaligned", *addr, sink),
        LoadFault::DataOutOfRange { addr } => write_load_fault(b"DataOutOfRange", *addr, sink),
        LoadFault::DataOverlap { addr } => write_load_fault(b"DataOverlap", *addr, sink),
        LoadFault::ShowOutOfRange { addr } => write_load_fault(b"ShowOutOfRange", *addr, sink),
        LoadFault::NoEntry { core } => write_load_fault(b"NoEntry", u64::from(*core), sink),
        LoadFault::OutOfMemory => write_pieces(sink, &[b"load bad OutOfMemory\n"]),
    }
}

/// Writes the line of a fault of loading that has an address or a core.
fn write_load_fault<K: Sink>(kind: &[u8], number: u64, sink: &mut K) -> Result<(), Failed>
    ensures { Writes (load_line kind.now number) (K.written sink.old) (K.written sink.new) (K.faults sink.old) (K.faults sink.new) result }
{
    let mut buffer = Buffer::new();
    write_pieces(
        sink,
        &[
            b"load bad ",
            kind,
            b" ",
            buffer.format(number).as_bytes(),
            b"\n",
        ],
    )
}

/// Writes the line of a fault of a machine's file: its kind, and the key where the kind has one.
fn write_machine_bad<K: Sink>(fault: &MachineFault, sink: &mut K) -> Result<(), Failed>
    ensures { Writes (fault_line (Fault.MachineBad fault.now)) (K.written sink.old) (K.written sink.new) (K.faults sink.old) (K.faults sink.new) result }
{
    match told_key(fault) {
        Some(key) => write_keyed(machine_kind(fault), key, sink),
        None => write_pieces(sink, &[b"machine bad ", machine_kind(fault), b"\n"]),
    }
}

/// Writes the line of a fault of a machine's file whose kind has a key.
fn write_keyed<K: Sink>(kind: &[u8], key: &str, sink: &mut K) -> Result<(), Failed>
    ensures { Writes (machine_line kind.now (Some key.now)) (K.written sink.old) (K.written sink.new) (K.faults sink.old) (K.faults sink.new) result }
{
    write_pieces(sink, &[b"machine bad ", kind, b" ", key.as_bytes(), b"\n"])
}

/// The word for what is wrong with a machine's file.
fn machine_kind(fault: &MachineFault) -> &'static [u8]
    ensures { result.now ≡ machine_kind fault.now }
{
    match fault {
        MachineFault::BadToml => b"BadToml",
        MachineFault::UnknownKey { .. } => b"UnknownKey",
        MachineFault::MissingKey { .. } => b"MissingKey",
        MachineFault::NotInteger { .. } => b"NotInteger",
        MachineFault::OutOfLimits { .. } => b"OutOfLimits",
        MachineFault::NotPowerOfTwo { .. } => b"NotPowerOfTwo",
        MachineFault::BadPolicy => b"BadPolicy",
        MachineFault::OutOfMemory => b"OutOfMemory",
    }
}

/// The key that a fault of a machine's file names.
fn told_key(fault: &MachineFault) -> Option<&str>
    ensures { option_map (λ key. key.now) result ≡ told_key fault.now }
{
    match fault {
        MachineFault::UnknownKey { key } => Some(key.as_str()),
        MachineFault::MissingKey { key }
        | MachineFault::NotInteger { key }
        | MachineFault::OutOfLimits { key }
        | MachineFault::NotPowerOfTwo { key } => Some(key.name()),
        MachineFault::BadToml | MachineFault::BadPolicy | MachineFault::OutOfMemory => None,
    }
}

/// The word for one of a command's files.
fn which_word(which: Which) -> &'static [u8]
    ensures { result.now ≡ which_word which }
{
    match which {
        Which::Program => b"program",
        Which::Machine => b"machine",
        Which::Trace => b"trace",
        Which::Kernel => b"kernel",
    }
}
