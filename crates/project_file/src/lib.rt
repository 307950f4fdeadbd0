//! The manifest of a folder and the settings of a project, read from a store.
//!
//! It stands on the terms of `elixir_terms`, the declarations of `dep_options` and the stores of `tree_store`. A
//! layer above may rely on this: `load_project` and `load_settings` answer exactly what the files say, and else
//! why they are refused; the store's failure is answered only where its count rose.
#![tactic(auto)]

mod compilers;
mod entries;
mod error;
mod laws;
mod loading;
mod manager;
mod manifest;
mod project;
mod settings;

pub use error::{ProjectError, SettingsError};
pub use laws::{one_project, one_settings, some_project, some_settings};
pub use loading::{load_project, load_settings, project_of_text};
pub use manager::manager_by_files;
pub use project::{Decls, Project};
pub use settings::Settings;
