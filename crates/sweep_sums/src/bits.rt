// The bits of a row, each of which is a column.
ghost use Rattle.std.specs.Prelude.{◌≡◌, ◌-◌, ◌<◌, ◌≤◌, bit_and};
ghost use Rattle.std.specs.Int.Count.{count_trailing_zeros, ones};

// The lowest named column of a row that names one: as many columns below it are not named as the row
// has trailing zeros. (The method answers 32 for a row of none, which is no column, so it is asked here
// alone, of a row that names one.)
pub fn lowest(columns: u32) -> u32
    requires { 0 < columns }
    ensures { result ≡ count_trailing_zeros 32 columns }
{
    u32::trailing_zeros(columns)
}

// The columns that a row names besides the lowest.
pub fn others(columns: u32) -> u32
    requires { 0 < columns }
    ensures value { result ≡ bit_and columns (columns - 1) }
    ensures most { result ≤ columns }
    ensures fewer { ones result < ones columns }
{
    columns & (columns - 1)
}
