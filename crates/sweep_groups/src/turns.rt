// The visits of a gate: where lines are set, its output's 0 and 1, where they are observed, its pins.
ghost use Rattle.std.specs.Prelude.{◌≡◌, ◌≤◌, ◌<◌};
ghost use Rattle.sizes.specs.Sizes as Size;
ghost use Rattle.cost.specs.Kind.{kind_index};
ghost use Rattle.sweep_groups.specs.Tables.{visit_count, visit_group, visit_place};
ghost use Rattle.sweep_groups.specs.Fits.{LinesFit};

use super::places::{observing_place, setting_place};
use cost::Kind;

// What a sweep is for.
#[derive(Clone, Copy, PartialEq, Eq)]
pub enum Role {
    Setting,
    Observing,
}

// The role that a number stands for: 0 setting, any above it observing.
impl From<usize> for Role {
    ghost use Rattle.sweep_groups.specs.Roles.{RoleOf};

    ghost from_gives = { RoleOf };

    fn from(number: usize) -> Role {
        match number {
            0 => Role::Setting,
            _ => Role::Observing,
        }
    }
}

// What a role is named by: a role, or any number that stands for one.
pub trait AsRole: Copy {
    ghost use Rattle.std.specs.Prelude.{ℕ};
    ghost use Rattle.sweep_groups.specs.Roles.{RoleOf};

    ghost number: { Self → ℕ };

    fn as_role(self) -> Role
        ensures { RoleOf (number self) result };
}

impl AsRole for Role {
    ghost use Rattle.sweep_groups.specs.Roles.{role_index};

    ghost number = { role_index };

    fn as_role(self) -> Role {
        self
    }
}

impl AsRole for usize {
    ghost number = { λ n. n };

    fn as_role(self) -> Role {
        Role::from(self)
    }
}

// The group of a visit, among the groups of the gate's cell.
pub fn visit_group<R: AsRole>(role: R, kind: Kind, i: usize) -> usize
    requires { i ≤ Size.pins }
    ensures { result ≡ visit_group (R.number role) (kind_index kind) i }
{
    match role.as_role() {
        Role::Setting => sizes::CC_GROUP + kind.index() * sizes::VALUES + i,
        Role::Observing => sizes::CO_GROUP + kind.index() * sizes::PINS + i,
    }
}

// The place of the number that a visit renews.
pub fn visit_place<R: AsRole>(
    role: R,
    kind: Kind,
    lines: &[u32; sizes::GATE_LINES],
    pins: usize,
    i: usize,
) -> usize
    requires { LinesFit lines.now pins × (i < visit_count (R.number role) pins) }
    ensures { result ≡ visit_place (R.number role) (kind_index kind) lines.now i }
{
    match role.as_role() {
        Role::Setting => setting_place(kind, lines[0], i),
        Role::Observing => observing_place(kind, lines[i + 1]),
    }
}
