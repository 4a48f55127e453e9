//! Nodes of the search, and the items that they are on a board. A solver over another queue uses
//! these too.
ghost use Rattle.std.specs.Prelude.{ℕ, ◌≡◌, ◌+◌, ◌-◌, ◌/◌, ◌%◌, ◌^◌, ◌<◌, ◌≤◌, ◌↔◌, IsTrue, MatchOption, length};
ghost use Rattle.klsm_instance.specs.Selections.{weight_of};
ghost use Rattle.klsm_instance.specs.Limits.{IsInRange};
ghost use Rattle.klsm_instance.specs.Nodes.{IsNode, IsBound, IsNodeOf, NoneAbove, level_in, picks_in};

use crate::instance::Instance;
use crate::thing::Thing;

/// A node of the search: the choices of the first `level` things are made.
#[derive(Clone, Copy, Debug, Drop)]
pub struct Node {
    /// How many choices are made.
    pub level: usize,
    /// The things taken: thing i where bit i is set.
    pub picks: u64,
    /// The value and the weight of these together.
    pub taken: Thing,
}

/// The greatest bound that a node may have.
const GREATEST_BOUND: u64 = 32_000_000;

impl Instance {
    /// The node at which no choice is made.
    pub fn root(&self) -> Node
        ensures node { IsNodeOf self.now result }
        ensures root { (result.level ≡ 0) × (result.picks ≡ 0) }
    {
        Node {
            level: 0,
            picks: 0,
            taken: Thing {
                value: 0,
                weight: 0,
            },
        }
    }

    /// The child of a node that leaves the next thing.
    #[inline]
    pub fn leaving(&self, node: &Node) -> Node
        requires node { IsNodeOf self.now node.now }
        requires free { node.now.level < length self.now.things }
        ensures node { IsNodeOf self.now result }
        ensures child { (result.level ≡ node.now.level + 1) × (result.picks ≡ node.now.picks) }
    {
        let len = self.len();
        prove!(node.level < len);
        Node {
            level: node.level + 1,
            picks: node.picks,
            taken: node.taken,
        }
    }

    /// The child of a node that takes the next thing, where that fits.
    #[inline]
    pub fn taking(&self, node: &Node) -> Option<Node>
        requires node { IsNodeOf self.now node.now }
        requires free { node.now.level < length self.now.things }
        ensures { MatchOption result
            (self.now.capacity < weight_of self.now (node.now.picks + 2 ^ node.now.level))
            (λ child. IsNodeOf self.now child × (child.level ≡ node.now.level + 1)
            × (child.picks ≡ node.now.picks + 2 ^ node.now.level)) }
    {
        let thing = self.thing(node.level);
        if thing.weight > self.capacity() - node.taken.weight {
            return None;
        }
        Some(Node {
            level: node.level + 1,
            picks: node.picks + (1 << node.level),
            taken: Thing {
                value: node.taken.value + thing.value,
                weight: node.taken.weight + thing.weight,
            },
        })
    }

    /// The node that leaves the next thing, and with it each one behind it that is the same. What leaves
    /// the first of these and takes a later one is worth as much as what takes the first.
    #[inline]
    pub fn leaving_alike(&self, node: &Node) -> Node
        requires node { IsNodeOf self.now node.now }
        requires free { node.now.level < length self.now.things }
        ensures node { IsNodeOf self.now result }
        ensures later { node.now.level < result.level }
        ensures picks { result.picks ≡ node.now.picks }
        ensures covers { (n : ℕ)
            → NoneAbove self.now (node.now.level + 1) (node.now.picks + 2 ^ node.now.level) n
            → NoneAbove self.now result.level node.now.picks n
            → NoneAbove self.now node.now.level node.now.picks n }
    {
        let thing = self.thing(node.level);
        let len = self.len();
        let mut level = node.level + 1;
        while level < len && self.is_thing(level, thing) {
            level += 1;
        }
        Node { level, ..*node }
    }

    /// The bound of a node.
    #[inline]
    pub fn bound_of(&self, node: &Node) -> u64
        requires node { IsNodeOf self.now node.now }
        ensures exact { IsBound self.now node.now.level node.now.picks result }
        ensures small { result ≤ 32000000 }
        ensures sound { NoneAbove self.now node.now.level node.now.picks result }
    {
        self.bound_with(node.level, node.picks, node.taken)
    }

    /// Whether the bound of a node is no more than a value. It takes no division.
    #[inline]
    pub fn is_bounded_by(&self, node: &Node, value: u64) -> bool
        requires node { IsNodeOf self.now node.now }
        ensures exact { (bound : ℕ) × IsBound self.now node.now.level node.now.picks bound
            × (IsTrue result ↔ (bound ≤ value)) }
        ensures sound { IsTrue result
            → NoneAbove self.now node.now.level node.now.picks value }
    {
        self.is_bounded_with(node.level, node.picks, node.taken, value)
    }

    /// The key of a node's item: 32,000,000 less its bound, so that a greater bound comes first.
    #[inline]
    pub fn key_of(&self, node: &Node) -> u64
        requires node { IsNodeOf self.now node.now }
        ensures { (bound : ℕ) × IsBound self.now node.now.level node.now.picks bound
            × (result + bound ≡ 32000000) }
    {
        let bound = self.bound_of(node);
        GREATEST_BOUND - bound
    }

    /// The load of a node's item: its level times 2^32, plus its picks.
    #[inline]
    pub fn load_of(&self, node: &Node) -> u64
        requires node { IsNodeOf self.now node.now }
        ensures level { level_in result ≡ node.now.level }
        ensures picks { picks_in result ≡ node.now.picks }
    {
        let len = self.len();
        prove!(len <= 32);
        packed(node.level as u64, node.picks)
    }

    /// The node that a load stands for, or none where it stands for no node of this instance.
    #[inline]
    pub fn node_of(&self, load: u64) -> Option<Node>
        ensures { MatchOption result (IsNode self.now (level_in load) (picks_in load) → ⊥)
            (λ node. IsNodeOf self.now node × (node.level ≡ level_in load)
            × (node.picks ≡ picks_in load) × IsInRange self.now) }
    {
        let (level, picks) = unpacked(load);
        let level = level as usize;
        let taken = self.totals(picks);
        if level <= self.len() && picks >> level == 0 && taken.weight <= self.capacity() {
            Some(Node {
                level,
                picks,
                taken,
            })
        } else {
            None
        }
    }
}

/// Two numbers in one, the first in the high half.
#[inline]
pub fn packed(high: u64, low: u64) -> u64
    requires high { high < 2 ^ 32 }
    requires low { low < 2 ^ 32 }
    ensures high { result / 2 ^ 32 ≡ high }
    ensures low { result % 2 ^ 32 ≡ low }
{
    (high << 32) + low
}

/// The two numbers in one, the one in the high half first.
#[inline]
pub fn unpacked(number: u64) -> (u64, u64)
    ensures high { result.0 ≡ number / 2 ^ 32 }
    ensures low { result.1 ≡ number % 2 ^ 32 }
{
    (number >> 32, number % (1 << 32))
}
