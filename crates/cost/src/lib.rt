// Costs, as document 01, "Costs", has them: 0 to 999,999,999 exact, over (1,000,000,000 in tables)
// and never (1,000,000,001), ordered so. A raw number above never counts as never, so that every
// call takes every number.
//
// Open to others: `Cost`, of a kind, with the methods `plus`, `lesser` and `compare`, by value. `Spatial`, the
// combinational costs (CC, CO), and `Temporal`, the sequential ones (SC, SO), are two types, so that a combinational cost
// is never added to a sequential one. What a method means is in specs/Cost.antt, the laws are in proofs/Laws.antt. Where
// the kind is known only at run time, it is a `Kind`.
#![tactic(auto)]

ghost use Rattle.std.specs.Prelude.{◌≡◌};
ghost use Rattle.cost.specs.Cost.{◌⊕◌, counted, lesser};
ghost use Rattle.cost.specs.Order.{order, compared, order_told};
ghost use Rattle.cost.specs.Kind.{kind_index, KindOf};

use std::cmp::Ordering;

pub const MOST: u32 = 999_999_999;

pub const OVER: u32 = 1_000_000_000;

pub const NEVER: u32 = 1_000_000_001;

// A kind of cost.
#[derive(Clone, Copy, PartialEq, Eq)]
pub enum Kind {
    Combinational,
    Sequential,
}

impl Kind {
    // Where a kind's number stands, among those of the kinds.
    pub fn index(self) -> usize
        ensures { result ≡ kind_index self }
    {
        match self {
            Kind::Combinational => 0,
            Kind::Sequential => 1,
        }
    }
}

// A number that is no kind's.
#[derive(Clone, Copy, PartialEq, Eq)]
pub struct UnknownKind;

impl TryFrom<usize> for Kind {
    type Error = UnknownKind;

    ghost try_from_gives = { KindOf };

    fn try_from(number: usize) -> Result<Self, UnknownKind> {
        match number {
            0 => Ok(Kind::Combinational),
            1 => Ok(Kind::Sequential),
            _ => Err(UnknownKind),
        }
    }
}

// A cost of a kind, by the kind's index.
#[derive(Clone, Copy)]
pub struct Cost<const KIND: usize>(pub u32);

// The spatial cost of source 000: of setting or observing a line in combinational terms.
pub type Spatial = Cost<0>;

// The temporal cost of source 000: of setting or observing a line in sequential terms.
pub type Temporal = Cost<1>;

// The number that a raw number counts as.
fn count(a: u32) -> u32
    ensures { result ≡ counted a }
{
    a.min(NEVER)
}

// The sum of two costs.
fn capped_sum(a: u32, b: u32) -> u32
    ensures { result ≡ a ⊕ b }
{
    if NEVER <= a {
        return NEVER;
    }
    if NEVER <= b {
        return NEVER;
    }
    let sum = a + b;
    if MOST < sum {
        return OVER;
    }
    sum
}

impl<const KIND: usize> Cost<KIND> {
    pub fn plus(self, other: Self) -> Self
        ensures { result.0 ≡ self.entry.0 ⊕ other.entry.0 }
    {
        Cost(capped_sum(self.0, other.0))
    }

    pub fn lesser(self, other: Self) -> Self
        ensures { result.0 ≡ lesser self.entry.0 other.entry.0 }
    {
        Cost(count(self.0).min(count(other.0)))
    }

    // How a cost stands to another, with the lesser of the two as a new cost.
    pub fn compare(self, other: Self) -> (Ordering, Self)
        ensures { order_told result ≡ compared self.entry.0 other.entry.0 }
    {
        (count(self.0).cmp(&count(other.0)), self.lesser(other))
    }
}
