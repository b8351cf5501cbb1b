//! Facts on the definitions, on small files.
#![tactic(auto)]

ghost use Rattle.machine_file.specs.Laws.{DescribeOrFail};
ghost use Rattle.machine_file.specs.Examples.{RefuseRightly, DescribeRightly};

/// Files that are refused.
pub fn refusals_are_right()
    ensures { RefuseRightly }
{}

/// Files and their machines.
pub fn machines_are_right()
    ensures { DescribeRightly }
{}

/// A table that describes a machine has no fault, and describes no other.
pub fn files_describe_or_fail()
    ensures { DescribeOrFail }
{}
