// A queue of costs in an array: which leaf has the cheapest, and of equal ones the first. To put a cost at
// a leaf takes a step for each level of the tree. There is a leaf for each value of each line.
//
// For the crates above: `CostQueue`, with `empty`, `of_keys`, `put`, `front` and `cost_at` (specs/Queue.antt).
#![tactic(auto)]

ghost use Rattle.std.specs.Prelude.{List, ◌≡◌, ℕ, ◌≤◌, ◌<◌, MatchOption};
ghost use Rattle.sizes.specs.Sizes as Size;
ghost use Rattle.cost.specs.Cost.{never};
ghost use Rattle.budget_queue.specs.Queue.{key, Queue, Put, NoCost, Front, cost_at};

use cost::NEVER;
use std::marker::Model;

const LEAVES: u64 = sizes::LEAVES as u64;

// The cheapest leaf and its cost.
#[derive(Clone, Copy)]
pub struct Foremost {
    pub leaf: usize,
    pub cost: u32,
}

fn key_of(cost: u32, leaf: usize) -> u64
    requires { (leaf < Size.leaves) × (cost ≤ never) }
    ensures { result ≡ key cost leaf }
{
    u64::from(cost) * LEAVES + leaf as u64
}

// The keys of the tree, those of the leaves last.
#[derive(Drop)]
pub struct CostQueue {
    keys: [u64; sizes::QUEUE],
}

impl Model for CostQueue {
    ghost Value = { List ℕ };

    ghost view = { λ q. q.keys };

    ghost invariant = { λ q. Queue q.keys };
}

impl CostQueue {
    // No costs.
    pub fn empty() -> CostQueue
        ensures { NoCost result }
    {
        let none = key_of(NEVER, 0);
        CostQueue {
            keys: [none; sizes::QUEUE],
        }
    }

    // The queue of these keys.
    pub fn of_keys(keys: [u64; sizes::QUEUE]) -> CostQueue
        requires { Queue keys }
        ensures { result ≡ keys }
    {
        CostQueue { keys }
    }

    // The cost at a leaf.
    pub fn cost_at(&self, leaf: usize) -> u32
        requires { leaf < Size.leaves }
        ensures { result ≡ cost_at self.now leaf }
    {
        (self.keys[sizes::LEAVES + leaf] / LEAVES) as u32
    }

    // Puts a cost at a leaf. Most costs stand there already, and then nothing is done.
    pub fn put(&mut self, leaf: usize, cost: u32)
        requires { (leaf < Size.leaves) × (cost ≤ never) }
        ensures { Put leaf cost self.old self.new }
    {
        if self.cost_at(leaf) == cost {
            return;
        }
        // The key goes up with the loop: to read it out of the array again would wait for its store.
        let mut key = key_of(cost, leaf);
        let mut at = sizes::LEAVES + leaf;
        self.keys[at] = key;
        while 1 < at {
            key = key.min(self.keys[at + 1 - at % 2 * 2]);
            at = at / 2;
            self.keys[at] = key;
        }
    }

    // None where no leaf has a cost below `NEVER`.
    pub fn front(&self) -> Option<Foremost>
        ensures { MatchOption result (NoCost self.now)
            (λ f. Front self.now f.leaf f.cost) }
    {
        let key = self.keys[1];
        let cost = (key / LEAVES) as u32;
        if cost < NEVER {
            Some(Foremost {
                leaf: (key % LEAVES) as usize,
                cost,
            })
        } else {
            None
        }
    }
}
