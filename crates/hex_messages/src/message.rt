// The kinds of messages.

/// The messages of a package.
#[derive(Clone, Copy)]
pub enum Message {
    Package,
    Release,
    Dependency,
    Retired,
}
