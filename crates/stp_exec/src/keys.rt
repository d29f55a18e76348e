//! The keys of steps.

ghost use Rattle.std.specs.Prelude.{◌≡◌, ◌≤◌, length, map};
ghost use Rattle.stp_base.specs.declared.limits.TheConstants.{MAX_STEPS};
ghost use Rattle.stp_exec.specs.Plans.{is_one_action, key_in};
ghost use Rattle.stp_exec.specs.Views.{plain_placed};

use crate::placed::Placed;

/// Whether two steps are of one action.
fn is_one_action(one: &Placed<'_>, other: &Placed<'_>) -> bool
    ensures { result ≡ is_one_action (plain_placed one.now) (plain_placed other.now) }
{
    one.chosen.schema == other.chosen.schema && one.chosen.args == other.chosen.args
}

/// The number, from 1, of the first of these steps that is of one action with a step.
pub(crate) fn key_of(placed: &[Placed<'_>], step: &Placed<'_>) -> u32
    requires { length placed.now ≤ MAX_STEPS }
    ensures { result ≡ key_in (map plain_placed placed.now) (plain_placed step.now) }
{
    for (index, other) in placed.iter().enumerate() {
        if is_one_action(step, other) {
            return index as u32 + 1;
        }
    }
    placed.len() as u32 + 1
}
