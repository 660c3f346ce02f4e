// A number for each node of a board.
ghost use Rattle.std.specs.Prelude.{◌≡◌, ℕ, suc, ◌^◌, ◌<◌, ◌≤◌, IfOk, length, replicate, slice_index, slice_set, sum};
ghost use Rattle.dob_safra.specs.Tokens.{most_nodes};

use std::alloc::{AllocError, Global};
use std::marker::Model;

/// A number of batches for each node of a board.
#[derive(Drop)]
pub struct Counts {
    numbers: Vec<u64>,
}

impl Model for Counts {
    ghost use Rattle.std.specs.Prelude.{ℕ, List};

    ghost Value = { List ℕ };

    ghost view = { λ counts. counts.numbers.items };
}

impl Counts {
    // 0 for each of so many nodes.
    pub(crate) fn zeros(alloc: Global, nodes: usize) -> Result<Counts, AllocError>
        ensures { IfOk result (λ counts. counts ≡ replicate nodes 0) }
    {
        let numbers = vec![in alloc; 0; nodes]?;
        Ok(Counts { numbers })
    }

    /// The number of that node.
    pub fn get(&self, node: usize) -> u64
        requires { node < length self.now }
        ensures { result ≡ slice_index self.now node }
    {
        self.numbers[node]
    }

    // That node has that number from now on.
    pub(crate) fn set(&mut self, node: usize, number: u64)
        requires { node < length self.old }
        ensures { self.new ≡ slice_set self.old node number }
    {
        self.numbers[node] = number;
    }

    // That node's number rises by one.
    pub(crate) fn add_one(&mut self, node: usize)
        requires node { node < length self.old }
        requires few { slice_index self.old node ≤ 2 ^ 40 }
        ensures { self.new ≡ slice_set self.old node (suc (slice_index self.old node)) }
    {
        let number = self.get(node);
        self.set(node, number + 1);
    }

    // All numbers, added up.
    pub(crate) fn total(&self) -> u64
        requires nodes { length self.now ≤ most_nodes }
        requires few { (k : ℕ) → k < length self.now → slice_index self.now k ≤ 2 ^ 40 }
        ensures total { result ≡ sum self.now }
        ensures few { result ≤ 2 ^ 44 }
    {
        let mut total = 0;
        for count in &self.numbers {
            total += *count;
        }
        total
    }
}
