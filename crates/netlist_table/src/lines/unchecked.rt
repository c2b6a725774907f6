// The same of a line that stands in the table: each function asks for the place that it reads, and tests no bounds.
ghost use Rattle.std.specs.Prelude.{◌≡◌, ◌<◌, length, get_or};
ghost use Rattle.sizes.specs.Places.{driver_place, output_place, mention_place, range_place};

// What drives a line. A number, as the next three are, not an enum or a `bool`: what stands there may be any, and is handed on
// without a test.
pub fn driver_of(table: &[u32], l: usize) -> u32
    requires { driver_place l < length table.now }
    ensures { result ≡ get_or table.now (driver_place l) 0 }
{
    table[l]
}

// Whether a line is an output: 1 where it is, else 0.
pub fn output_of(table: &[u32], l: usize) -> u32
    requires { output_place l < length table.now }
    ensures { result ≡ get_or table.now (output_place l) 0 }
{
    table[sizes::OUTPUTS_AT + l]
}

// Whether a line stands anywhere in the netlist: 0 where it does not.
pub fn mention_of(table: &[u32], l: usize) -> u32
    requires { mention_place l < length table.now }
    ensures { result ≡ get_or table.now (mention_place l) 0 }
{
    table[sizes::MENTIONS_AT + l]
}

// The range of a line in its one number, 0 where there is none.
pub fn range_of(table: &[u32], l: usize) -> u32
    requires { range_place l < length table.now }
    ensures { result ≡ get_or table.now (range_place l) 0 }
{
    table[sizes::RANGES_AT + l]
}
