//! Lists of nodes, each node linked to the one behind it.

ghost use Rattle.std.specs.Prelude.{◌≡◌, ℕ, ◌<◌, [], List, IfOk, None, Some, length, reverse, replicate, slice_get};
ghost use Rattle.std.specs.List.{last_or};
ghost use Rattle.std.specs.Option.{ForSome};
ghost use Rattle.pei_types.specs.Recency.{list_at};
ghost use Rattle.link_list.specs.Linked.{IsWellFormed, list_of, follower, pushed_front, pushed_back, unlinked};
ghost use Rattle.link_list.specs.Walks.{behind_led, firsts_led};

use pei_types::OutOfMemory;
use std::alloc::Global;
use std::marker::Model;

/// Lists of nodes, each node linked to the one behind it.
#[derive(Drop)]
pub(crate) struct Chains {
    /// The node behind each node. Of a node that is in no list it means nothing.
    behind: Vec<Option<u32>>,
    /// The first node of each list.
    firsts: Vec<Option<u32>>,
}

impl Model for Chains {
    ghost use Rattle.link_list.specs.Linked.{Linked};
    ghost use Rattle.link_list.specs.Walks.{shown, IsChained};

    ghost Value = { Linked };

    ghost view = { λ c. shown c.behind.items c.firsts.items };

    ghost invariant = { λ c. IsChained c.behind.items c.firsts.items };
}

/// So many times no node.
pub(crate) fn no_nodes(alloc: Global, len: u32) -> Result<Vec<Option<u32>>, OutOfMemory>
    ensures { IfOk result (λ v. v.items ≡ replicate len None) }
{
    vec![in alloc; None; len as usize].map_err(|_| OutOfMemory)
}

/// Leads to `to` from a node, or from the beginning of a list where there is no node.
fn lead(
    behind: &mut [Option<u32>],
    firsts: &mut [Option<u32>],
    list: u32,
    from: Option<u32>,
    to: Option<u32>,
)
    requires list { list < length firsts.old }
    requires from { ForSome from (λ node. node < length behind.old) }
    ensures behind { behind.new ≡ behind_led behind.old from to }
    ensures firsts { firsts.new ≡ firsts_led firsts.old list from to }
{
    match from {
        Some(node) => behind[node as usize] = to,
        None => firsts[list as usize] = to,
    }
}

impl Chains {
    /// So many nodes, none in a list, and so many empty lists.
    pub(crate) fn make(alloc: Global, nodes: u32, lists: u32) -> Result<Chains, OutOfMemory>
        ensures { IfOk result (λ c. c ≡ record { nodes = nodes; lists = replicate lists [] }) }
    {
        let behind = no_nodes(alloc, nodes)?;
        let firsts = no_nodes(alloc, lists)?;
        Ok(Chains { behind, firsts })
    }

    /// The first node of a list.
    pub(crate) fn first(&self, list: u32) -> Option<u32>
        requires { list < length self.now.lists }
        ensures first { result ≡ slice_get (list_at self.now.lists list) 0 }
        ensures well_formed { IsWellFormed self.now }
    {
        self.firsts[list as usize]
    }

    /// The node behind a node of a list.
    pub(crate) fn follower(&self, node: u32) -> Option<u32>
        requires { node < self.now.nodes }
        ensures behind { (list : ℕ) → list_of self.now node ≡ Some list → result ≡ follower (list_at self.now.lists list) node }
        ensures well_formed { IsWellFormed self.now }
    {
        self.behind[node as usize]
    }

    /// Puts a node in front of a list.
    pub(crate) fn add_first(&mut self, list: u32, node: u32)
        requires list { list < length self.old.lists }
        requires node { node < self.old.nodes }
        requires free { list_of self.old node ≡ None }
        ensures added { self.new ≡ pushed_front self.old list node }
        ensures well_formed { IsWellFormed self.new }
    {
        self.behind[node as usize] = self.firsts[list as usize];
        self.firsts[list as usize] = Some(node);
    }

    /// Puts a node behind the last node of a list.
    pub(crate) fn add_last(&mut self, list: u32, last: Option<u32>, node: u32)
        requires list { list < length self.old.lists }
        requires node { node < self.old.nodes }
        requires free { list_of self.old node ≡ None }
        requires last { last ≡ last_or None (list_at self.old.lists list) }
        ensures added { self.new ≡ pushed_back self.old list node }
        ensures well_formed { IsWellFormed self.new }
    {
        lead(&mut self.behind, &mut self.firsts, list, last, Some(node));
        self.behind[node as usize] = None;
    }

    /// Takes a node out of its list, where `before` is the one in front of it.
    pub(crate) fn skip(&mut self, list: u32, before: Option<u32>, node: u32)
        requires node { node < self.old.nodes }
        requires list { list_of self.old node ≡ Some list }
        requires before { before ≡ follower (reverse (list_at self.old.lists list)) node }
        ensures unlinked { self.new ≡ unlinked self.old node }
        ensures well_formed { IsWellFormed self.new }
    {
        let after = self.behind[node as usize];
        lead(&mut self.behind, &mut self.firsts, list, before, after);
    }
}
