//! The laws of texts and their trees, each the contract of a function with an empty body.

ghost use Rattle.kernel_text.specs.Laws.{OneTree, SomeTree, SoundTreesHaveNoFault, TreesAreSound};

/// A text without a fault spells a tree.
pub fn some_tree()
    ensures { SomeTree }
{}

/// A text spells at most one tree.
pub fn one_tree()
    ensures { OneTree }
{}

/// A tree that a text without a fault spells is sound: its names are declared once, and its variables set before they are
/// read; each name is used as what it is; and sizes, words, variables, depths, brackets and parts keep their limits.
pub fn trees_are_sound()
    ensures { TreesAreSound }
{}

/// A text that spells a sound tree has no fault.
pub fn sound_trees_have_no_fault()
    ensures { SoundTreesHaveNoFault }
{}
