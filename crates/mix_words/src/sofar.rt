// What the words behind a command's name say, as far as they were read.
ghost use Rattle.std.specs.Prelude.{◌≡◌, MatchResult};
ghost use Rattle.mix_words.specs.declared.error.Stop.TheVariants as stops;
ghost use Rattle.mix_words.specs.Live.{Bars, Goes, Lives, MayGive, may_give, may_raise};
ghost use Rattle.mix_words.specs.Piece.{Joint, Other, Raised};
ghost use Rattle.mix_words.specs.Sofar.{state_of};

use crate::apps::Apps;
use crate::error::Stop;
use crate::named::{has_env, has_target, name_of};
use crate::number::read_count;
use crate::option::{Flag, Valued};
use crate::settings::Settings;
use crate::verb::Verb;
use std::alloc::Global;

/// The options and apps that were read behind a command's name.
#[derive(Drop)]
pub(crate) struct Sofar<'a> {
    pub(crate) verb: Verb,
    pub(crate) settings: Settings,
    pub(crate) apps: Apps<'a>,
}

impl<'a> Sofar<'a> {
    /// Whether an option may stand next.
    pub(crate) fn may_give(&self, option: Valued) -> bool
        ensures { result ≡ may_give (state_of self.now) option }
    {
        let settings = &self.settings;
        match option {
            Valued::Env => self.verb.takes_build() && settings.env.is_none(),
            Valued::Target => self.verb.takes_build() && settings.target.is_none(),
            Valued::Partitions => {
                self.verb.takes_run() && (settings.partitions.is_none() && !settings.plain)
            }
        }
    }

    // Whether a flag may stand next.
    fn may_raise(&self, flag: Flag) -> bool
        ensures { result ≡ may_raise (state_of self.now) flag }
    {
        let settings = &self.settings;
        let free = !settings.trace;
        match flag {
            Flag::Plain => {
                self.verb.takes_run()
                    && (!settings.plain && (free && settings.partitions.is_none()))
            }
            Flag::Trace => self.verb.takes_run() && (!settings.plain && free),
        }
    }

    /// With the value of an option.
    pub(crate) fn with_value(
        self,
        alloc: Global,
        option: Valued,
        value: &str,
    ) -> Result<Sofar<'a>, Stop>
        requires lives { Lives (state_of self) }
        requires may { MayGive (state_of self) option }
        ensures { MatchResult result
            (λ new. Goes (state_of self.entry) (Joint option value.now) (state_of new))
            (λ stop. stop ≡ stops.Refused → Bars (state_of self.entry) (Joint option value.now)) }
    {
        match option {
            Valued::Env => self.with_env(alloc, value),
            Valued::Target => self.with_target(alloc, value),
            Valued::Partitions => self.with_partitions(value),
        }
    }

    fn with_env(self, alloc: Global, value: &str) -> Result<Sofar<'a>, Stop>
        requires lives { Lives (state_of self) }
        requires may { MayGive (state_of self) Valued.Env }
        ensures { MatchResult result
            (λ new. Goes (state_of self.entry) (Joint Valued.Env value.now) (state_of new))
            (λ stop. stop ≡ stops.Refused → Bars (state_of self.entry) (Joint Valued.Env value.now)) }
    {
        let Sofar {
            verb,
            mut settings,
            apps,
        } = self;
        let Some(env) = name_of(alloc, value)? else {
            return Err(Stop::Refused);
        };
        if !has_target(value, settings.target.as_ref()) {
            return Err(Stop::Refused);
        }
        settings.env = Some(env);
        Ok(Sofar {
            verb,
            settings,
            apps,
        })
    }

    fn with_target(self, alloc: Global, value: &str) -> Result<Sofar<'a>, Stop>
        requires lives { Lives (state_of self) }
        requires may { MayGive (state_of self) Valued.Target }
        ensures { MatchResult result
            (λ new. Goes (state_of self.entry) (Joint Valued.Target value.now) (state_of new))
            (λ stop. stop ≡ stops.Refused → Bars (state_of self.entry) (Joint Valued.Target value.now)) }
    {
        let Sofar {
            verb,
            mut settings,
            apps,
        } = self;
        let Some(target) = name_of(alloc, value)? else {
            return Err(Stop::Refused);
        };
        if !has_env(settings.env.as_ref(), value) {
            return Err(Stop::Refused);
        }
        settings.target = Some(target);
        Ok(Sofar {
            verb,
            settings,
            apps,
        })
    }

    fn with_partitions(self, value: &str) -> Result<Sofar<'a>, Stop>
        requires lives { Lives (state_of self) }
        requires may { MayGive (state_of self) Valued.Partitions }
        ensures { MatchResult result
            (λ new. Goes (state_of self.entry) (Joint Valued.Partitions value.now) (state_of new))
            (λ stop. stop ≡ stops.Refused
            → Bars (state_of self.entry) (Joint Valued.Partitions value.now)) }
    {
        let Sofar {
            verb,
            mut settings,
            apps,
        } = self;
        let Some(count) = read_count(value) else {
            return Err(Stop::Refused);
        };
        settings.partitions = Some(count);
        Ok(Sofar {
            verb,
            settings,
            apps,
        })
    }

    /// With an option that has no value.
    pub(crate) fn with_flag(self, flag: Flag) -> Result<Sofar<'a>, Stop>
        requires { Lives (state_of self) }
        ensures { MatchResult result (λ new. Goes (state_of self.entry) (Raised flag) (state_of new))
            (λ stop. stop ≡ stops.Refused → Bars (state_of self.entry) (Raised flag)) }
    {
        if !self.may_raise(flag) {
            return Err(Stop::Refused);
        }
        let Sofar {
            verb,
            settings,
            apps,
        } = self;
        Ok(Sofar {
            verb,
            settings: settings.raised(flag),
            apps,
        })
    }

    /// With a word that is no option.
    pub(crate) fn with_app(self, alloc: Global, word: &'a str) -> Result<Sofar<'a>, Stop>
        requires { Lives (state_of self) }
        ensures { MatchResult result (λ new. Goes (state_of self.entry) (Other word.now) (state_of new))
            (λ stop. stop ≡ stops.Refused → Bars (state_of self.entry) (Other word.now)) }
    {
        let Sofar {
            verb,
            settings,
            apps,
        } = self;
        if !verb.takes_apps() {
            return Err(Stop::Refused);
        }
        if apps.has(word) {
            return Err(Stop::Refused);
        }
        let Some(name) = name_of(alloc, word)? else {
            return Err(Stop::Refused);
        };
        let apps = apps.with(name, word)?;
        Ok(Sofar {
            verb,
            settings,
            apps,
        })
    }
}
