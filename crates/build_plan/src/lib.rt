//! The plan of a project: its files, an environment, a target, and the jobs in the order in which they are compiled.
//!
//! It brings together the rows of `dep_rows`, the rules of `converger`, the order of `dep_order` and the manifests of
//! `project_file`. A layer above may rely on this: `plan` answers the one plan that the files have, or the refusal
//! that is met first; nothing is written.
#![tactic(auto)]

mod dependencies;
mod error;
mod found;
mod jobs;
mod laws;
mod limits;
mod lines;
mod manifests;
mod needs;
mod opening;
mod options;
mod planning;
mod post;
mod recipe;
mod root;
mod said;
mod scene;
mod sources;
mod versions;

pub use error::{DivergedLine, DivergedLines, PlanError};
pub use laws::{one_plan, one_plan_of, some_plan, some_plan_of};
pub use planning::{name_of, plan, plan_of};
