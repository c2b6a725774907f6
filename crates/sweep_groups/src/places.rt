// Places of the numbers table, by kind, line and value.
ghost use Rattle.std.specs.Prelude.{◌≡◌, ◌≤◌};
ghost use Rattle.sizes.specs.Places.{setting_place, observing_place};
ghost use Rattle.cost.specs.Kind.{kind_index};

use cost::Kind;

// The place of a line at a value, in the numbers table.
pub fn setting_place(kind: Kind, line: u32, value: usize) -> usize
    requires { (1 ≤ line) × (value ≤ 1) }
    ensures { result ≡ setting_place (kind_index kind) line value }
{
    (line as usize - 1) * sizes::COSTS + kind.index() * sizes::VALUES + value
}

// The place of a line observed.
pub fn observing_place(kind: Kind, line: u32) -> usize
    requires { 1 ≤ line }
    ensures { result ≡ observing_place (kind_index kind) line }
{
    (line as usize - 1) * sizes::COSTS + sizes::OBSERVED_AT + kind.index()
}
