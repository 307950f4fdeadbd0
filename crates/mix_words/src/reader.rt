// A reader of the words behind a command's name, word by word.
ghost use Rattle.std.specs.Prelude.{◌≡◌, [], ℕ, List, Some, None, IsTrue, MatchResult};
ghost use Rattle.mix_words.specs.declared.command.Command.{Command as IsCommand};
ghost use Rattle.mix_words.specs.Live.{Dies, Follows, Leads, LeadsOn, Lives, LivesOn, ready_at, start_of};
ghost use Rattle.mix_words.specs.Sofar.{place_of, state_of};
ghost use Rattle.mix_words.specs.Table.{takes_build};
ghost use Rattle.mix_words.specs.declared.error.Stop.TheVariants as stops;

use crate::apps::Apps;
use crate::command::Command;
use crate::error::Stop;
use crate::option::{Valued, flag_named, is_dashed, option_named, split_value};
use crate::settings::{Settings, choice};
use crate::sofar::Sofar;
use crate::verb::Verb;
use std::alloc::Global;

/// What was read, and the option whose value is the next word.
#[derive(Drop)]
pub(crate) struct Reader<'a> {
    sofar: Sofar<'a>,
    waiting: Option<Valued>,
}

impl<'a> Reader<'a> {
    /// Before the first word.
    pub(crate) fn new(alloc: Global, verb: Verb) -> Reader<'a>
        ensures { place_of result ≡ start_of verb }
    {
        Reader {
            sofar: Sofar {
                verb,
                settings: Settings::none(),
                apps: Apps::new(alloc),
            },
            waiting: None,
        }
    }

    /// With one word more.
    pub(crate) fn with(self, alloc: Global, word: &'a str) -> Result<Reader<'a>, Stop>
        requires { LivesOn (place_of self) }
        ensures { MatchResult result (λ new. Follows (place_of self.entry) word.now (place_of new))
            (λ stop. stop ≡ stops.Refused → Dies (place_of self.entry) word.now) }
    {
        let Reader { sofar, waiting } = self;
        match waiting {
            Some(option) => Ok(ready(sofar.with_value(alloc, option, word)?)),
            None => read_piece(alloc, sofar, word),
        }
    }

    /// The command, where the words end here.
    pub(crate) fn finish(self, alloc: Global) -> Result<Command, Stop>
        requires { LivesOn (place_of self) }
        ensures { MatchResult result (λ command. LeadsOn (place_of self.entry) [] command)
            (λ stop. stop ≡ stops.Refused → (command : IsCommand) → LeadsOn (place_of self.entry) [] command → ⊥) }
    {
        let Reader { sofar, waiting } = self;
        match waiting {
            Some(_) => Err(Stop::Refused),
            None => command_of(alloc, sofar),
        }
    }
}

fn ready(sofar: Sofar<'_>) -> Reader<'_>
    ensures { place_of result ≡ record { state = state_of sofar.entry; waiting = None } }
{
    Reader {
        sofar,
        waiting: None,
    }
}

// With a word where no option waits for its value.
fn read_piece<'a>(alloc: Global, sofar: Sofar<'a>, word: &'a str) -> Result<Reader<'a>, Stop>
    requires { Lives (state_of sofar) }
    ensures { MatchResult result (λ new. Follows (ready_at (state_of sofar.entry)) word.now (place_of new))
        (λ stop. stop ≡ stops.Refused → Dies (ready_at (state_of sofar.entry)) word.now) }
{
    if let Some(wanted) = option_named(word) {
        if !sofar.may_give(wanted) {
            return Err(Stop::Refused);
        }
        return Ok(Reader {
            sofar,
            waiting: Some(wanted),
        });
    }
    if let Some(flag) = flag_named(word) {
        return Ok(ready(sofar.with_flag(flag)?));
    }
    if let Some((option, value)) = split_value(word) {
        if !sofar.may_give(option) {
            return Err(Stop::Refused);
        }
        return Ok(ready(sofar.with_value(alloc, option, value)?));
    }
    if is_dashed(word) {
        return Err(Stop::Refused);
    }
    Ok(ready(sofar.with_app(alloc, word)?))
}

// The command that was read whole.
fn command_of(alloc: Global, sofar: Sofar<'_>) -> Result<Command, Stop>
    requires { Lives (state_of sofar) }
    ensures { MatchResult result (λ command. Leads (state_of sofar.entry) [] command)
        (λ stop. stop ≡ stops.Refused → (command : IsCommand) → Leads (state_of sofar.entry) [] command → ⊥) }
{
    match sofar.verb {
        Verb::Help => Ok(Command::Help),
        _ => built(alloc, sofar),
    }
}

// The command of a build that was read whole.
fn built(alloc: Global, sofar: Sofar<'_>) -> Result<Command, Stop>
    requires lives { Lives (state_of sofar) }
    requires build { IsTrue (takes_build sofar.verb) }
    ensures { MatchResult result (λ command. Leads (state_of sofar.entry) [] command)
        (λ stop. stop ≡ stops.Refused → (command : IsCommand) → Leads (state_of sofar.entry) [] command → ⊥) }
{
    let Sofar {
        verb,
        settings,
        apps,
    } = sofar;
    let Settings {
        env,
        target,
        partitions,
        plain,
        trace,
    } = settings;
    let build = choice(alloc, env, target)?;
    match verb {
        Verb::Deps => Ok(Command::Deps { build }),
        Verb::Stale => Ok(Command::Stale { build }),
        Verb::Compile => Ok(Command::Compile {
            build,
            partitions,
            plain,
            trace,
        }),
        Verb::Clean => Ok(Command::Clean {
            build,
            apps: apps.into_names(),
        }),
        _ => unreachable!(),
    }
}
