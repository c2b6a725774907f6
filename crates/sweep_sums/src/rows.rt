// Row sums in costs of a kind, which are added to none of the other kind.
ghost use Rattle.std.specs.Prelude.{◌≡◌, ◌<◌, ltb};
ghost use Rattle.cost.specs.Cost.{counted, lesser};
ghost use Rattle.plans.specs.Sweep.{sums};
ghost use Rattle.sweep_sums.specs.Columns.{ColumnsFit};
ghost use Rattle.sweep_sums.specs.Gone.{columns_gone};
ghost use Rattle.sweep_sums.specs.Sums.{row_sum};

use super::bits::{lowest, others};
use cost::Cost;

// "A row's sum is taken as its lowest named column plus the sum of the rest, the routine calling
// itself." Where the rest is empty its sum is 0, without a call. The answer is the cost's number, which a
// register takes from call to call; a struct would go through memory.
fn row_sum<const KIND: usize>(costs: &[u32; sizes::COLUMNS], columns: u32) -> u32
    requires { (0 < columns) × ColumnsFit columns costs.now }
    ensures { result ≡ sums costs.now (columns_gone columns) }
{
    let column = lowest(columns) as usize;
    let cost = costs[column];
    let rest = others(columns);
    if rest == 0 {
        return Cost::<KIND>(cost).plus(Cost(0)).0;
    }
    let sum = row_sum::<KIND>(costs, rest);
    Cost::<KIND>(cost).plus(Cost(sum)).0
}

// The sum of the columns that a row names, if any. The first of them is taken here, so that a row that
// names one column is summed without a call.
fn columns_sum<const KIND: usize>(costs: &[u32; sizes::COLUMNS], columns: u32) -> Cost<KIND>
    requires { ColumnsFit columns costs.now }
    ensures { result.0 ≡ sums costs.now (columns_gone columns) }
{
    if columns == 0 {
        return Cost(0);
    }
    let column = lowest(columns) as usize;
    let cost = Cost(costs[column]);
    let rest = others(columns);
    if rest == 0 {
        return cost.plus(Cost(0));
    }
    cost.plus(Cost(row_sum::<KIND>(costs, rest)))
}

// The lesser of a row's sum, its columns and its depth, and of another cost.
pub fn lesser_row<const KIND: usize>(
    costs: &[u32; sizes::COLUMNS],
    depth: u32,
    columns: u32,
    best: Cost<KIND>,
) -> Cost<KIND>
    requires { ColumnsFit columns costs.now }
    ensures { result.0 ≡ lesser (row_sum costs.now depth columns) best.entry.0 }
{
    Cost(depth).plus(columns_sum(costs, columns)).lesser(best)
}

// Whether a cost is lower than another.
pub fn is_lower<const KIND: usize>(cost: Cost<KIND>, other: Cost<KIND>) -> bool
    ensures { result ≡ ltb (counted cost.entry.0) (counted other.entry.0) }
{
    cost.compare(other).0.is_lt()
}
