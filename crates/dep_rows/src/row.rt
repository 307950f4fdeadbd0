// A declaration and where it stands.

use dep_options::Decl;
use mx_base::{AppName, ListOf};

/// Places in the list of rows.
pub type Places = ListOf<u32>;

/// Rows in their order.
pub type RowList = ListOf<Row>;

/// A declaration, and where it stands.
#[derive(Clone, Drop)]
pub struct Row {
    pub app: AppName,
    /// The place of the row whose child it is, and none for the root's.
    pub by: Option<u32>,
    /// Its place, from 0, among the root's declarations or among the children of that winner, from
    /// which those were dropped that the winner's environment doesn't admit.
    pub index: u32,
    pub decl: Decl,
    /// Whether it brings its app in: not where it is optional and stands outside the root.
    pub required: bool,
}
