//! Which commands may be a group.
ghost use Rattle.std.specs.Prelude.{◌≡◌, not, position};
ghost use Rattle.pf_core.specs.Commands.{may_be_grouped, bad_number, group_words};

use crate::command::Command;
use crate::reply::Refusal;

/// How many commands a group may have. Definitions cite it.
pub const GROUP_LIMIT: usize = 64;

fn is_bad_number(number: usize) -> bool
    ensures { result ≡ bad_number number }
{
    number == 0 || number > GROUP_LIMIT
}

// The place of the first command that a group may not have.
fn first_unfit(commands: &[Command]) -> Option<usize>
    ensures { result ≡ position (λ c. not (may_be_grouped c)) commands.now }
{
    commands
        .iter()
        .position(|command| !command.may_be_grouped())
}

/// Whether these commands may be a group, whatever is kept. The refusal is the first in this order: `BadCount`; `NotGrouped`. It takes no
/// memory.
pub fn check_group(commands: &[Command]) -> Result<(), Refusal>
    ensures { result ≡ group_words commands.now }
{
    if is_bad_number(commands.len()) {
        return Err(Refusal::BadCount);
    }
    match first_unfit(commands) {
        Some(index) => Err(Refusal::NotGrouped { index }),
        None => Ok(()),
    }
}
