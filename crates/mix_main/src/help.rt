// The command `help`.
ghost use Rattle.mix_main.specs.Answer.{reply_in};
ghost use Rattle.mix_main.specs.Help.{Helps};
ghost use Rattle.mix_main.specs.World.{Site, passage_of};

use crate::answer::{Answer, Stop};
use crate::status::Status;
use std::alloc::Global;

/// The names of the commands, one a line.
pub(crate) fn help(alloc: Global) -> Result<Answer, Stop>
    ensures { (site : Site) → Helps (passage_of site site) (reply_in result) }
{
    Ok(Answer {
        status: Status::Done,
        text: Vec::from_slice(alloc, b"help\ndeps.compile\n")?,
    })
}
