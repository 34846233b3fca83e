ghost use Rattle.std.specs.Prelude.{◌≡◌, ℕ, ◌+◌, ◌<◌, ◌≤◌, MatchOption, length, slice_index};

use mpm_base::Pid;
use std::marker::Model;

/// How many processes there are at most.
pub const PROCESSES: usize = 32;

/// The nodes of the processes, and one for each of 96 lists.
pub const NODES: usize = 128;

/// A node of the links, below 128: a process, by its slot, or the end of a list, 32 and the list's number.
#[derive(Clone, Copy)]
pub struct Node(u8);

impl Model for Node {
    ghost Value = { ℕ };

    ghost view = { λ n. n.0 };

    ghost invariant = { λ n. n.0 < 128 };

    ghost inverse = { λ n. record { 0 = n } };
}

impl Node {
    /// All nodes, in order.
    pub fn all() -> [Node; NODES]
        ensures same { (k : ℕ) → k < 128 → slice_index result k ≡ k }
        ensures size { length result ≡ 128 }
    {
        let mut nodes = [Node(0); NODES];
        for k in 0..NODES {
            nodes[k] = Node(k as u8);
        }
        nodes
    }

    /// The node of a process.
    pub fn of(p: Pid) -> Node
        ensures { result ≡ p }
    {
        Node(p.0)
    }

    /// The node of a list, which stands before its first process and after its last.
    pub fn end(list: u8) -> Node
        requires { list < 96 }
        ensures { result ≡ 32 + list }
    {
        Node(32 + list)
    }

    /// The process of a node; none for the end of a list.
    pub fn process(self) -> Option<Pid>
        ensures { MatchOption result (32 ≤ self) (λ p. (p ≡ self) × (p < 32)) }
    {
        if self.0 < 32 { Some(Pid(self.0)) } else { None }
    }

    /// The node's place in the links.
    pub fn index(self) -> usize
        ensures same { result ≡ self }
        ensures below { result < 128 }
    {
        usize::from(self.0)
    }
}
