//! Lists of nodes linked both ways by index in one array.
#![tactic(auto)]

mod chains;
pub mod evidence;
pub mod laws;

ghost use Rattle.std.specs.Prelude.{◌≡◌, ◌≢◌, ℕ, ◌+◌, ◌<◌, [], ◌∷◌, List, IfOk, IfSome, None, Some, length, replicate, slice_get, nat_eq};
ghost use Rattle.std.specs.List.{last_or};
ghost use Rattle.pei_types.specs.Recency.{change_at, list_at, without};
ghost use Rattle.link_list.specs.Linked.{IsIn, IsOn, IsWellFormed, list_of, rest_from, pushed_front, pushed_back, unlinked, moved_front};

use crate::chains::{Chains, no_nodes};
use pei_types::OutOfMemory;
use std::alloc::Global;
use std::marker::Model;

/// Lists of nodes, each node in one list at most.
///
/// Nodes and lists are numbered from 0. All memory is taken by `make`, and each other call takes constant time. The
/// condition of each call is that its nodes and lists are in range.
#[derive(Drop)]
pub struct Lists {
    /// The lists from front to back.
    forward: Chains,
    /// The same lists from back to front.
    backward: Chains,
    /// The list that each node is in.
    owners: Vec<Option<u32>>,
}

impl Model for Lists {
    ghost use Rattle.link_list.specs.Linked.{Linked};
    ghost use Rattle.link_list.specs.Walks.{IsTied};

    ghost Value = { Linked };

    ghost view = { λ l. l.forward };

    ghost invariant = { λ l. IsTied l.forward l.backward l.owners.items };
}

impl Lists {
    /// So many nodes, 0 to `nodes` - 1, none of them in a list, and so many empty lists, 0 to `lists` - 1.
    ///
    /// `OutOfMemory` says that the memory for them could not be had; no clause ties it to that.
    pub fn make(alloc: Global, nodes: u32, lists: u32) -> Result<Lists, OutOfMemory>
        ensures empty { IfOk result (λ l. l ≡ record { nodes = nodes; lists = replicate lists [] }) }
        ensures well_formed { IfOk result IsWellFormed }
    {
        let forward = Chains::make(alloc, nodes, lists)?;
        let backward = Chains::make(alloc, nodes, lists)?;
        let owners = no_nodes(alloc, nodes)?;
        Ok(Lists {
            forward,
            backward,
            owners,
        })
    }

    /// The list that a node is in.
    pub fn list_of(&self, node: u32) -> Option<u32>
        requires { node < self.now.nodes }
        ensures list { result ≡ list_of self.now node }
        ensures within { IfSome result (λ list. list < length self.now.lists) }
        ensures well_formed { IsWellFormed self.now }
    {
        self.owners[node as usize]
    }

    /// The front node of a list, or `None` where the list is empty.
    pub fn front(&self, list: u32) -> Option<u32>
        requires { list < length self.now.lists }
        ensures front { result ≡ slice_get (list_at self.now.lists list) 0 }
        ensures rest { rest_from (list_at self.now.lists list) result ≡ list_at self.now.lists list }
        ensures on { IfSome result (λ node. IsOn self.now list node) }
        ensures well_formed { IsWellFormed self.now }
    {
        self.forward.first(list)
    }

    /// The back node of a list, or `None` where the list is empty.
    pub fn back(&self, list: u32) -> Option<u32>
        requires { list < length self.now.lists }
        ensures back { result ≡ last_or None (list_at self.now.lists list) }
        ensures on { IfSome result (λ node. IsOn self.now list node) }
        ensures well_formed { IsWellFormed self.now }
    {
        self.backward.first(list)
    }

    /// The node behind a node of a list, or `None` behind the back node. The condition is that the node is in a list.
    pub fn next(&self, node: u32) -> Option<u32>
        requires node { node < self.now.nodes }
        requires listed { IsIn self.now node }
        ensures next { (list place : ℕ) → slice_get (list_at self.now.lists list) place ≡ Some node → result ≡ slice_get (list_at self.now.lists list) (place + 1) }
        // On a walk, what is left from a node on is the node, and what is left from the result on.
        ensures rest { (list : ℕ) → list_of self.now node ≡ Some list
            → rest_from (list_at self.now.lists list) (Some node) ≡ node ∷ rest_from (list_at self.now.lists list) result }
        ensures on { (list : ℕ) → list_of self.now node ≡ Some list → IfSome result (λ behind. IsOn self.now list behind) }
        ensures well_formed { IsWellFormed self.now }
    {
        self.forward.follower(node)
    }

    /// Puts a node in front of a list. The condition is that it is in no list.
    pub fn push_front(&mut self, list: u32, node: u32)
        requires list { list < length self.old.lists }
        requires node { node < self.old.nodes }
        requires free { list_of self.old node ≡ None }
        ensures pushed { self.new ≡ pushed_front self.old list node }
        ensures on { IsOn self.new list node }
        ensures others { (other : ℕ) → other ≢ node → list_of self.new other ≡ list_of self.old other }
        ensures count { length self.new.lists ≡ length self.old.lists }
        ensures well_formed { IsWellFormed self.new }
    {
        let front = self.forward.first(list);
        self.backward.add_last(list, front, node);
        self.forward.add_first(list, node);
        self.owners[node as usize] = Some(list);
    }

    /// Puts a node at the back of a list. The condition is that it is in no list.
    pub fn push_back(&mut self, list: u32, node: u32)
        requires list { list < length self.old.lists }
        requires node { node < self.old.nodes }
        requires free { list_of self.old node ≡ None }
        ensures pushed { self.new ≡ pushed_back self.old list node }
        ensures on { IsOn self.new list node }
        ensures others { (other : ℕ) → other ≢ node → list_of self.new other ≡ list_of self.old other }
        ensures count { length self.new.lists ≡ length self.old.lists }
        ensures well_formed { IsWellFormed self.new }
    {
        let back = self.backward.first(list);
        self.forward.add_last(list, back, node);
        self.backward.add_first(list, node);
        self.owners[node as usize] = Some(list);
    }

    /// Takes a node out of its list. The condition is that it is in a list.
    pub fn unlink(&mut self, node: u32)
        requires node { node < self.old.nodes }
        requires listed { IsIn self.old node }
        ensures unlinked { self.new ≡ unlinked self.old node }
        ensures of_its_list { (list : ℕ) → list_of self.old node ≡ Some list
            → self.new ≡ record self.old { lists = change_at self.old.lists list (without (nat_eq node)) } }
        ensures free { list_of self.new node ≡ None }
        ensures others { (other : ℕ) → other ≢ node → list_of self.new other ≡ list_of self.old other }
        ensures count { length self.new.lists ≡ length self.old.lists }
        ensures well_formed { IsWellFormed self.new }
    {
        if let Some(list) = self.owners[node as usize] {
            let before = self.backward.follower(node);
            let after = self.forward.follower(node);
            self.forward.skip(list, before, node);
            self.backward.skip(list, after, node);
            self.owners[node as usize] = None;
        }
    }

    /// Moves a node to the front of its list. The condition is that it is in a list.
    pub fn move_front(&mut self, node: u32)
        requires node { node < self.old.nodes }
        requires listed { IsIn self.old node }
        ensures moved { self.new ≡ moved_front self.old node }
        ensures of_its_list { (list : ℕ) → list_of self.old node ≡ Some list
            → self.new ≡ record self.old { lists = change_at self.old.lists list (λ xs. node ∷ without (nat_eq node) xs) } }
        ensures same { (other : ℕ) → list_of self.new other ≡ list_of self.old other }
        ensures count { length self.new.lists ≡ length self.old.lists }
        ensures well_formed { IsWellFormed self.new }
    {
        if let Some(list) = self.owners[node as usize] {
            self.unlink(node);
            self.push_front(list, node);
        }
    }
}

#[cfg(test)]
mod tests {
    use super::*;
    use std::test::Fail;

    #[test]
    fn keeps_three_nodes(rt: HostRuntime) -> Result<(), Fail> {
        let mut lists = Lists::make(rt.alloc(), 3, 2)?;
        lists.push_front(0, 1);
        lists.push_front(0, 2);
        lists.push_back(0, 0);
        assert_eq!(rt; (lists.front(0), lists.back(0)), (Some(2), Some(0)));
        assert_eq!(rt;
            (lists.next(2), lists.next(1), lists.next(0)),
            (Some(1), Some(0), None)
        );
        lists.move_front(0);
        lists.unlink(2);
        assert_eq!(rt;
            (lists.front(0), lists.next(0), lists.next(1)),
            (Some(0), Some(1), None)
        );
        assert_eq!(rt; (lists.list_of(0), lists.list_of(2)), (Some(0), None));
        assert_eq!(rt;
            (lists.back(0), lists.front(1), lists.back(1)),
            (Some(1), None, None)
        );
        Ok(())
    }
}
