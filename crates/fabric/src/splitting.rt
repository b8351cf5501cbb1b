//! Splitting a fabric into its banks, and merging them.

ghost use Rattle.std.specs.Prelude.{◌≡◌, ◌+◌, ◌≤◌, ◌∷◌, ◌++◌, [], ℕ, length, vec_capacity};
ghost use Rattle.std.specs.List.{AllByRecursion};
ghost use Rattle.pei_types.specs.declared.machines.MachineSpec.{MachineSpec};
ghost use Rattle.pei_types.specs.Program.{Contents};
ghost use Rattle.fabric.specs.Banks.{banks_at_start};
ghost use Rattle.fabric.specs.KeptReserve.{IsFresh, IsReserve};
ghost use Rattle.fabric.specs.Merge.{CanMerge, IsCons, merged_history};

use crate::bank::{Bank, Reserve};
use crate::merging::{laws, replay_all};
use crate::sections::Section;
use crate::whole::Fabric;
use pei_types::Banks;
use std::mem;

/// Takes all sections out, in order. There are 1 to 8.
fn take_all(sections: &mut Vec<Section>) -> Banks<Section>
    requires some { 1 ≤ length sections.old.items }
    requires few { length sections.old.items ≤ 8 }
    ensures taken { result ≡ sections.old.items }
    ensures left { sections.new.items ≡ [] }
    ensures room { vec_capacity sections.new ≡ vec_capacity sections.old }
{
    let count = sections.len();
    let mut taken = Banks::make(sections.remove(0));
    for _ in 1..count {
        taken.push(sections.remove(0));
    }
    taken
}

/// Takes out the first section, which is there.
fn take_first(sections: &mut Banks<Section>) -> Section
    requires { IsCons sections.old }
    ensures { sections.old ≡ result ∷ sections.new }
{
    match sections.take_first() {
        Some(section) => section,
        None => unreachable!(),
    }
}

/// The first bank, with the reserve.
fn lead(section: Section, reserve: Reserve) -> Banks<Bank>
    requires { IsFresh section.machine section.image reserve }
    ensures { result ≡ section ∷ [] }
{
    Banks::make(Bank {
        section,
        reserve: Some(reserve),
    })
}

/// A bank behind the first.
fn follower(section: Section) -> Bank
    requires { 1 ≤ section.bank }
    ensures { result ≡ section }
{
    Bank {
        section,
        reserve: None,
    }
}

/// The other banks behind the first.
fn follow(banks: &mut Banks<Bank>, sections: &mut Banks<Section>)
    requires few { length banks.old + length sections.old ≤ 8 }
    requires later { AllByRecursion (λ h. 1 ≤ h.bank) sections.old }
    ensures { banks.new ≡ banks.old ++ sections.old }
{
    for _ in 0..sections.len() {
        banks.push(follower(take_first(sections)));
    }
}

/// The banks, the first with a reserve.
fn lead_all(sections: &mut Banks<Section>, reserve: Reserve) -> Banks<Bank>
    requires { (m : MachineSpec) × (image : Contents) × (sections.old ≡ banks_at_start m image) × IsFresh m image reserve }
    ensures { result ≡ sections.old }
{
    let first = take_first(sections);
    let mut banks = lead(first, reserve);
    follow(&mut banks, sections);
    banks
}

/// The banks, the first with the reserve, out of which they come.
fn split_all(reserve: Reserve) -> Banks<Bank>
    requires { (m : MachineSpec) × (image : Contents) × IsReserve m image (banks_at_start m image) reserve }
    ensures { result ≡ reserve.banks.items }
{
    let mut reserve = reserve;
    let mut sections = take_all(&mut reserve.banks);
    let banks = lead_all(&mut sections, reserve);

    // Each section was taken out, so nothing leaks. A drop would have the check walk through eight places with whole banks.
    mem::forget(sections);
    banks
}

/// The section of a bank.
fn section_of(bank: Bank) -> Section
    ensures { result ≡ bank }
{
    let Bank { section, .. } = bank;
    section
}

/// Takes out the first bank, which is there.
fn take_bank(banks: &mut Banks<Bank>) -> Bank
    requires { IsCons banks.old }
    ensures { banks.old ≡ result ∷ banks.new }
{
    match banks.take_first() {
        Some(bank) => bank,
        None => unreachable!(),
    }
}

/// The sections of the banks behind the first.
fn gather(sections: &mut Vec<Section>, banks: &mut Banks<Bank>)
    requires room { length sections.old.items + length banks.old ≤ vec_capacity sections.old }
    ensures items { sections.new.items ≡ sections.old.items ++ banks.old }
    ensures capacity { vec_capacity sections.new ≡ vec_capacity sections.old }
{
    for _ in 0..banks.len() {
        sections.push_reserved(section_of(take_bank(banks)));
    }
}

/// The section and the reserve of bank 0.
fn opened(bank: Bank) -> (Section, Reserve)
    requires { bank.bank ≡ 0 }
    ensures section { result.0 ≡ bank }
    ensures reserve { IsFresh bank.machine bank.image result.1 }
{
    let Bank { section, reserve } = bank;
    match reserve {
        Some(reserve) => (section, reserve),
        None => unreachable!(),
    }
}

impl Fabric {
    /// The banks of the fabric, each with an empty log. The condition is that the journal is empty.
    pub fn split(self) -> Banks<Bank>
        requires { self.journal ≡ [] }
        ensures { result ≡ banks_at_start self.machine self.image }
    {
        let Fabric {
            parts,
            journal,
            image,
            banks,
        } = self;
        split_all(Reserve {
            parts,
            journal,
            image,
            banks,
        })
    }

    /// The fabric that the banks make together: its journal is the events of all banks, in the order of their stamps.
    ///
    /// The conditions are that these are all banks of one machine, in order; that their stamps are the numbers from 0 on, each
    /// once; and that the events in the order of their stamps are of actors of the machine, meet the guards that look at more
    /// than one bank, enter alone, fence rightly, and issue nothing while a fence of their core is on. The rest the banks
    /// themselves keep. It takes the time of the run once more.
    pub fn merge(banks: Banks<Bank>) -> Fabric
        requires { (m : MachineSpec) × (image : Contents) × (n : ℕ) × CanMerge m image n banks }
        ensures { (m : MachineSpec) (image : Contents) (n : ℕ) → CanMerge m image n banks → result ≡ merged_history m image n banks }
    {
        laws();
        let mut banks = banks;
        let (section, reserve) = opened(take_bank(&mut banks));
        let Reserve {
            mut parts,
            mut journal,
            image,
            banks: mut sections,
        } = reserve;
        sections.push_reserved(section);
        gather(&mut sections, &mut banks);

        // Each bank was taken out, so nothing leaks. A drop would have the check walk through eight places with whole banks.
        mem::forget(banks);
        replay_all(&sections, &image, &mut parts, &mut journal);
        Fabric {
            parts,
            journal,
            image,
            banks: sections,
        }
    }
}
