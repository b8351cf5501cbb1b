//! Memory while a program's initial words are placed.

ghost use Rattle.std.specs.Prelude.{◌≡◌, ◌+◌, ◌*◌, ◌<◌, ◌%◌, ◌/◌, [], None, IfOk, OnOk, IfErr, length, slice_set, true};
ghost use Rattle.pei_types.specs.Image.{lines_refusal, words_given};
ghost use Rattle.pei_loader.specs.declared.faults.LoadFault.TheVariants.{OutOfMemory};
ghost use Rattle.pei_loader.specs.Faults.{IsFaultOf};
ghost use Rattle.pei_loader.specs.Filled.{Filled, given_before, line_refusal_at, marked_refusal};

use crate::faults::LoadFault;
use pei_types::{Image, MachineSpec, Program};
use std::alloc::Global;

/// An image, with a mark for each word that the program gave so far.
#[derive(Drop)]
pub(crate) struct Memory {
    image: Image,
    given: Vec<bool>,
}

impl Memory {
    /// Memory of zeros, with no word given.
    pub(crate) fn make(alloc: Global, spec: &MachineSpec) -> Result<Memory, LoadFault>
        ensures filled { IfOk result (λ m. Filled spec.now.blocks [] m.image.words m.given.items) }
        ensures entries { IfOk result (λ m. length m.image.entries ≡ 8) }
        ensures refused { IfErr result (λ f. f ≡ OutOfMemory) }
    {
        let Ok(image) = Image::make(alloc, spec.blocks) else {
            return Err(LoadFault::OutOfMemory);
        };
        match vec![in alloc; false; 8 * spec.blocks as usize] {
            Ok(given) => Ok(Memory { image, given }),
            Err(_) => Err(LoadFault::OutOfMemory),
        }
    }

    /// Places the words of all lines, in their order.
    pub(crate) fn place_lines(
        &mut self,
        spec: &MachineSpec,
        program: &Program,
    ) -> Result<(), LoadFault>
        requires { Filled spec.now.blocks [] self.old.image.words self.old.given.items }
        ensures filled { OnOk result
            (Filled spec.now.blocks (words_given program.now) self.new.image.words self.new.given.items) }
        ensures entries { self.new.image.entries ≡ self.old.image.entries }
        ensures ok { OnOk result (lines_refusal spec.now.blocks [] program.now.lines ≡ None) }
        ensures refused { IfErr result (λ f. IsFaultOf f (lines_refusal spec.now.blocks [] program.now.lines)) }
    {
        for i in 0..program.lines() {
            self.place_line(spec, program, i)?;
        }
        Ok(())
    }

    /// Places the words of one line, where those of each earlier line are placed.
    ///
    /// The first word past memory is refused, so the addresses stay small.
    fn place_line(&mut self, spec: &MachineSpec, program: &Program, i: u32) -> Result<(), LoadFault>
        requires found { i < length program.now.lines }
        requires filled { Filled spec.now.blocks (given_before program.now i) self.old.image.words self.old.given.items }
        ensures filled { OnOk result
            (Filled spec.now.blocks (given_before program.now (i + 1)) self.new.image.words self.new.given.items) }
        ensures entries { self.new.image.entries ≡ self.old.image.entries }
        ensures ok { OnOk result (line_refusal_at spec.now.blocks program.now i ≡ None) }
        ensures refused { IfErr result (λ f. IsFaultOf f (line_refusal_at spec.now.blocks program.now i)) }
    {
        let (addr, words) = program.line(i);
        if addr % 8 != 0 {
            return Err(LoadFault::DataMisaligned { addr });
        }
        let mut next = addr;
        for word in words {
            self.place_word(spec, next, *word)?;
            next += 8;
        }
        Ok(())
    }

    /// Places and marks one word, where its address is in memory and without a mark.
    fn place_word(&mut self, spec: &MachineSpec, addr: u64, word: u64) -> Result<(), LoadFault>
        requires aligned { addr % 8 ≡ 0 }
        requires room { length self.old.image.words ≡ 8 * spec.now.blocks }
        requires marks { length self.old.given.items ≡ 8 * spec.now.blocks }
        ensures words { OnOk result (self.new.image.words ≡ slice_set self.old.image.words (addr / 8) word) }
        ensures given { OnOk result (self.new.given.items ≡ slice_set self.old.given.items (addr / 8) true) }
        ensures entries { self.new.image.entries ≡ self.old.image.entries }
        ensures inside { OnOk result (addr < 64 * spec.now.blocks) }
        ensures ok { OnOk result (marked_refusal spec.now.blocks self.old.given.items addr ≡ None) }
        ensures refused { IfErr result (λ f. IsFaultOf f (marked_refusal spec.now.blocks self.old.given.items addr)) }
    {
        if addr >= 64 * u64::from(spec.blocks) {
            return Err(LoadFault::DataOutOfRange { addr });
        }
        let place = (addr / 8) as usize;
        if self.given[place] {
            return Err(LoadFault::DataOverlap { addr });
        }
        self.given[place] = true;
        self.image.set_word(addr, word);
        Ok(())
    }

    /// The image, without the marks.
    pub(crate) fn into_image(self) -> Image
        ensures { result ≡ self.image }
    {
        self.image
    }
}
