// A question that was read.
ghost use Rattle.std.specs.Prelude.{◌≡◌};
ghost use Rattle.telegram.specs.Commands.{byte_of};
ghost use Rattle.stations.specs.Kinds.{action as action_of};

use crate::kind::Action;
use telegram::{Command, Telegram};

// The fields of a question, with its command and what that asks for.
#[derive(Clone, Copy)]
pub struct Question<'a> {
    pub action: Action,
    pub command: Command,
    pub telegram: Telegram<'a>,
    ghost known: { telegram.command ≡ byte_of command },
    ghost asks: { action ≡ action_of telegram.command },
}
