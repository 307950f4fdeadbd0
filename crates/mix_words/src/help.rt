// The list of the commands.
ghost use Rattle.std.specs.Prelude.{◌≡◌, IfOk, string_bytes};
ghost use Rattle.mix_words.specs.Table.{help_text};

use crate::verb::VERBS;
use std::alloc::{AllocError, Global};

/// The names of the commands, one a line, in the order of the table.
pub fn help_text(alloc: Global) -> Result<String, AllocError>
    ensures { IfOk result (λ text. string_bytes text ≡ help_text) }
{
    let mut text = String::new(alloc);
    for verb in &VERBS {
        text.push_str(verb.name())?;
        text.push('\n')?;
    }
    Ok(text)
}
