// By which compiler each manager compiles.

use compile_model::How;

/// By which compiler each manager compiles.
#[derive(Drop)]
pub struct Settings {
    pub mix: How,
    pub rebar3: How,
    pub make: How,
}
