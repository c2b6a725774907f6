// The lines that were put back and whose drivers are still to come, in memory of its own.
ghost use Rattle.std.specs.Prelude.{◌≡◌, List, [], ◌∷◌, ◌++◌, ℕ, ◌+◌, ◌≤◌, ◌<◌, eqb, leb, length, get_or, take, MatchOption};
ghost use Rattle.sizes.specs.Sizes as Size;
ghost use Rattle.netlist_table.specs.Sound.{InRange};

use std::marker::Model;

// At most 64 lines, each one of the 1,000.
#[derive(Drop)]
pub struct Stack {
    lines: [usize; sizes::BACK_LINES],
    high: usize,
}

impl Model for Stack {
    ghost Value = { List ℕ };

    ghost view = { λ s. take s.high s.lines };

    ghost invariant = { λ s. (s.high ≤ Size.back_lines) × ((j : ℕ) → j < s.high → InRange (get_or s.lines j 0)) };
}

impl Stack {
    pub fn empty() -> Stack
        ensures { result ≡ [] }
    {
        Stack {
            lines: [0; sizes::BACK_LINES],
            high: 0,
        }
    }

    pub fn is_empty(&self) -> bool
        ensures { result ≡ eqb (length self.now) 0 }
    {
        self.high == 0
    }

    // Whether there is room for the lines of all pins of a gate.
    pub fn has_room(&self) -> bool
        ensures { result ≡ leb (length self.now + Size.pins) Size.back_lines }
    {
        self.high <= sizes::BACK_LINES - sizes::PINS
    }

    pub fn push(&mut self, line: usize)
        requires { (length self.old < Size.back_lines) × InRange line }
        ensures { self.new ≡ self.old ++ line ∷ [] }
    {
        self.lines[self.high] = line;
        self.high += 1;
    }

    pub fn pop(&mut self) -> Option<usize>
        ensures { MatchOption result ((self.old ≡ []) × (self.new ≡ []))
            (λ line. (self.old ≡ self.new ++ line ∷ []) × InRange line) }
    {
        if self.high == 0 {
            return None;
        }
        self.high -= 1;
        Some(self.lines[self.high])
    }
}
