// Why a file of a project is refused.
ghost use Rattle.std.specs.Prelude.{◌≡◌, ◌++◌, OnOk};
ghost use Rattle.project_file.specs.Said.{manifest_said, settings_said};

use dep_options::{OptionCause, OptionError};
use elixir_terms::{TermCause, TermError};
use std::alloc::{AllocError, AllocFailed, Global};
use tree_store::StoreFault;

/// Why a manifest is refused.
#[derive(Drop)]
pub enum ProjectError {
    /// The store failed, and counted it.
    Read,
    /// The text spells no term within the limits.
    Term(TermError),
    /// The term is no manifest.
    Shape,
    /// A declaration is refused.
    Options(OptionError),
    /// There was not enough memory. This says nothing of the file.
    OutOfMemory,
}

/// Why the settings are refused.
#[derive(Drop)]
pub enum SettingsError {
    /// The store failed, and counted it.
    Read,
    /// The text spells no term within the limits.
    Term(TermError),
    /// The term is none of settings.
    Shape,
    /// There was not enough memory. This says nothing of the file.
    OutOfMemory,
}

impl From<AllocError> for ProjectError {
    ghost use Rattle.std.specs.Prelude.{◌≡◌};
    ghost use Rattle.project_file.specs.declared.error.ProjectError.TheVariants.{OutOfMemory};

    ghost from_gives = { λ _ e. e ≡ OutOfMemory };

    fn from(_: AllocError) -> ProjectError {
        ProjectError::OutOfMemory
    }
}

impl From<TermError> for ProjectError {
    ghost use Rattle.std.specs.Prelude.{◌≡◌};
    ghost use Rattle.project_file.specs.Refusals.{term_refused};

    ghost from_gives = { λ error e. e ≡ term_refused error };

    fn from(error: TermError) -> ProjectError {
        match error.cause {
            TermCause::OutOfMemory => ProjectError::OutOfMemory,
            _ => ProjectError::Term(error),
        }
    }
}

impl From<OptionError> for ProjectError {
    ghost use Rattle.std.specs.Prelude.{◌≡◌};
    ghost use Rattle.project_file.specs.Refusals.{options_refused};

    ghost from_gives = { λ error e. e ≡ options_refused error };

    fn from(error: OptionError) -> ProjectError {
        match &error.cause {
            OptionCause::OutOfMemory => ProjectError::OutOfMemory,
            _ => ProjectError::Options(error),
        }
    }
}

impl From<StoreFault> for ProjectError {
    ghost use Rattle.std.specs.Prelude.{◌≡◌};
    ghost use Rattle.project_file.specs.Refusals.{project_fault};

    ghost from_gives = { λ fault e. e ≡ project_fault fault };

    fn from(fault: StoreFault) -> ProjectError {
        match fault {
            StoreFault::Failed => ProjectError::Read,
            StoreFault::OutOfMemory => ProjectError::OutOfMemory,
        }
    }
}

impl From<AllocError> for SettingsError {
    ghost use Rattle.std.specs.Prelude.{◌≡◌};
    ghost use Rattle.project_file.specs.declared.error.SettingsError.TheVariants.{OutOfMemory};

    ghost from_gives = { λ _ e. e ≡ OutOfMemory };

    fn from(_: AllocError) -> SettingsError {
        SettingsError::OutOfMemory
    }
}

impl From<TermError> for SettingsError {
    ghost use Rattle.std.specs.Prelude.{◌≡◌};
    ghost use Rattle.project_file.specs.Refusals.{settings_term_refused};

    ghost from_gives = { λ error e. e ≡ settings_term_refused error };

    fn from(error: TermError) -> SettingsError {
        match error.cause {
            TermCause::OutOfMemory => SettingsError::OutOfMemory,
            _ => SettingsError::Term(error),
        }
    }
}

impl From<StoreFault> for SettingsError {
    ghost use Rattle.std.specs.Prelude.{◌≡◌};
    ghost use Rattle.project_file.specs.Refusals.{settings_fault};

    ghost from_gives = { λ fault e. e ≡ settings_fault fault };

    fn from(fault: StoreFault) -> SettingsError {
        match fault {
            StoreFault::Failed => SettingsError::Read,
            StoreFault::OutOfMemory => SettingsError::OutOfMemory,
        }
    }
}

impl ProjectError {
    /// Adds why the manifest is refused, for people.
    pub fn say(&self, alloc: Global, text: &mut Vec<u8>) -> Result<(), AllocError>
        ensures { OnOk result (text.new.items ≡ text.old.items ++ manifest_said self.now) }
    {
        match self {
            ProjectError::Read => text.extend_from_slice(b"read fault"),
            ProjectError::Term(error) => error.say(alloc, text),
            ProjectError::Shape => text.extend_from_slice(b"shape"),
            ProjectError::Options(error) => error.say(alloc, text),
            ProjectError::OutOfMemory => text.extend_from_slice(b"out of memory"),
        }
    }
}

impl SettingsError {
    /// Adds why the settings are refused, for people.
    pub fn say(&self, alloc: Global, text: &mut Vec<u8>) -> Result<(), AllocError>
        ensures { OnOk result (text.new.items ≡ text.old.items ++ settings_said self.now) }
    {
        match self {
            SettingsError::Read => text.extend_from_slice(b"read fault"),
            SettingsError::Term(error) => error.say(alloc, text),
            SettingsError::Shape => text.extend_from_slice(b"shape"),
            SettingsError::OutOfMemory => text.extend_from_slice(b"out of memory"),
        }
    }
}
