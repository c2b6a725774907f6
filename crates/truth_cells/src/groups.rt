// Whether the groups of a cell, in the table, are those of a truth table.
ghost use Rattle.std.specs.Prelude.{map, ℕ, ◌≡◌, ◌+◌, ◌≤◌, ◌<◌};
ghost use Rattle.sizes.specs.Places.{group_place};
ghost use Rattle.sizes.specs.Sizes as Size;
ghost use Rattle.library_table.specs.Cells.{Group};
ghost use Rattle.truth_rows.specs.declared.Asked.{Asked};
ghost use Rattle.truth_rows.specs.Asked.{AsksFor, Small, asked_number};
ghost use Rattle.truth_rows.specs.Masks.{is_one, prime_rows, up_from, Bits};
ghost use Rattle.truth_cells.specs.Words.{farthest, row_is, rows_are, groups_are, groups_of};

use library_table::Heading;
use table::word;
use truth_rows::masks::{is_prime, number};
use truth_rows::{Asked, of_pin, of_value};

// Where a group of a cell starts.
pub fn group_place(cell: u32, group: usize) -> usize
    requires { group < Size.groups }
    ensures { (result ≡ group_place cell group) × (result ≤ farthest) }
{
    sizes::CELLS_AT
        + cell as usize * sizes::CELL_WORDS
        + sizes::GROUPS_AT
        + group * sizes::GROUP_WORDS
}

// Whether a row of a group is the one that an entry of one bit of depth writes as this number.
#[tactic(auto, unfolding(crate::specs::Words::row_is, library_table::specs::Cells::depth_bits))]
fn is_row(library: &[u32], at: usize, row: usize, number: u32) -> bool
    requires { (at ≤ farthest) × (row ≤ 81) }
    ensures { result ≡ row_is library.now at row number }
{
    let depths = Heading::Plain.depths();
    word(library, at + 1 + 2 * row) == number % depths
        && word(library, at + 2 + 2 * row) == number / depths
}

// Whether the group at a place has just the rows that are asked for, in their order.
fn has_rows(library: &[u32], at: usize, asked: Asked) -> bool
    requires { (at ≤ farthest) × Small asked }
    ensures { result ≡ rows_are library.now at 0
        (map (asked_number asked) (prime_rows asked.wanted asked.pins)) }
{
    let pins = asked.pins;
    let mut found = 0;
    for row in (0..3u32.pow(pins as u32)).rev() {
        if is_prime(asked.wanted, pins, row) {
            if !is_row(
                library,
                at,
                found,
                number(asked.base, asked.weight, pins, row),
            ) {
                return false;
            }
            found += 1;
        }
    }
    word(library, at) as usize == found
}

// Whether so many groups from one on are those that are asked for, each by its place behind it.
fn has_line<F: Fn(usize) -> Asked>(
    library: &[u32],
    cell: u32,
    first: usize,
    count: usize,
    group: F,
) -> bool
    requires few { first + count ≤ Size.groups }
    requires may_call { (k : ℕ) → k < count → F.pre group k }
    requires small { (k : ℕ) (a : Asked) → k < count → F.post group k a → Small a }
    ensures { (g : ℕ → Group) → ((k : ℕ) (a : Asked) → k < count → F.post group k a → AsksFor a (g k))
        → result ≡ groups_are library.now cell first (map g (up_from 0 count)) }
{
    for k in 0..count {
        if !has_rows(library, group_place(cell, first + k), group(k)) {
            return false;
        }
    }
    true
}

// Whether all groups of a cell are those of the truth table.
pub fn has_groups(library: &[u32], cell: u32, pins: usize, bits: &[u8]) -> bool
    requires { Bits pins bits.now }
    ensures { result ≡ groups_of library.now cell pins (map is_one bits.now) }
{
    let set = has_line(
        library,
        cell,
        sizes::CC_GROUP,
        2,
        |k| of_value(1, pins, bits, k == 1),
    ) & has_line(
        library,
        cell,
        sizes::SC_GROUP,
        2,
        |k| of_value(0, pins, bits, k == 1),
    );
    let observed = has_line(
        library,
        cell,
        sizes::CO_GROUP,
        pins,
        |k| of_pin(1, pins, bits, k),
    ) & has_line(
        library,
        cell,
        sizes::SO_GROUP,
        pins,
        |k| of_pin(0, pins, bits, k),
    );
    set & observed
}
