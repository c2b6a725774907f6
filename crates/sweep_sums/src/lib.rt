// The sum of a row over the costs of its gate's columns, and the lesser of such sums, each in costs of its
// own kind. Of tables, cells and gates it knows nothing.
//
// For the crates above: `Sum`, `sum_of`, `no_sum`, `lesser_of`, `is_lower` and `spatial_of`, which ask for a
// kind, `number_of`, `lesser_row`, which asks that the columns have costs, and module `bits`.
//
// Module `rows` adds up rows and compares costs, in costs of one kind. Every sum that is answered has its kind in
// the contract (`Summed`).
#![tactic(auto)]

pub mod bits;
mod rows;

ghost use Rattle.std.specs.Prelude.{◌≡◌, ◌≤◌, ltb};
ghost use Rattle.cost.specs.Cost.{never, counted, lesser};
ghost use Rattle.cost.specs.Kind.{kind_index};
ghost use Rattle.sweep_sums.specs.Columns.{ColumnsFit};
ghost use Rattle.sweep_sums.specs.Sums.{sum_number, sum_kind, Summed, row_sum};

use cost::{Cost, Kind, NEVER, Spatial, Temporal};

// A row sum, or the least of some, in the costs of its kind. (No type parameter: which kind it is shows at
// run time.)
#[derive(Clone, Copy)]
pub enum Sum {
    Combinational(Spatial),
    Sequential(Temporal),
}

// A number as a sum of its kind.
pub fn sum_of(kind: Kind, number: u32) -> Sum
    ensures { Summed (kind_index kind) number result }
{
    match kind {
        Kind::Combinational => Sum::Combinational(Cost(number)),
        Kind::Sequential => Sum::Sequential(Cost(number)),
    }
}

// What the least of no sums is.
pub fn no_sum(kind: Kind) -> Sum
    ensures { Summed (kind_index kind) never result }
{
    sum_of(kind, NEVER)
}

// The lesser of a number of the table and a sum of the number's kind.
pub fn lesser_of(number: u32, sum: Sum) -> Sum
    ensures { Summed (sum_kind sum) (lesser number (sum_number sum)) result }
{
    match sum {
        Sum::Combinational(s) => Sum::Combinational(Cost(number).lesser(s)),
        Sum::Sequential(s) => Sum::Sequential(Cost(number).lesser(s)),
    }
}

// Whether a sum is lower than another of its kind. Sums of two kinds are not compared.
pub fn is_lower(sum: Sum, other: Sum) -> bool
    requires { sum_kind sum ≡ sum_kind other }
    ensures { result ≡ ltb (counted (sum_number sum)) (counted (sum_number other)) }
{
    match (sum, other) {
        (Sum::Combinational(s), Sum::Combinational(o)) => rows::is_lower(s, o),
        (Sum::Sequential(s), Sum::Sequential(o)) => rows::is_lower(s, o),
        _ => false,
    }
}

// A combinational sum as the cost that it is.
pub fn spatial_of(sum: Sum) -> Spatial
    requires { sum_kind sum ≡ 0 }
    ensures { result.0 ≡ sum_number sum }
{
    match sum {
        Sum::Combinational(s) => s,
        Sum::Sequential(_) => Cost(NEVER),
    }
}

// The number that a sum is stored as.
pub fn number_of(sum: Sum) -> u32
    ensures { result ≡ sum_number sum }
{
    match sum {
        Sum::Combinational(s) => s.0,
        Sum::Sequential(s) => s.0,
    }
}

// The lesser of a row's sum, its columns and its depth, and of the best so far, in whose kind it is
// taken.
pub fn lesser_row(costs: &[u32; sizes::COLUMNS], depth: u32, columns: u32, best: Sum) -> Sum
    requires { ColumnsFit columns costs.now }
    ensures { Summed (sum_kind best) (lesser (row_sum costs.now depth columns) (sum_number best)) result }
{
    match best {
        Sum::Combinational(b) => Sum::Combinational(rows::lesser_row(costs, depth, columns, b)),
        Sum::Sequential(b) => Sum::Sequential(rows::lesser_row(costs, depth, columns, b)),
    }
}
