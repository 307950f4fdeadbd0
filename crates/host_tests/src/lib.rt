//! Tests over the real file system, which no contract speaks of.
#![tactic(auto)]

#[cfg(test)]
mod folder_tests;
#[cfg(test)]
mod given;
#[cfg(test)]
mod mark_tests;
#[cfg(test)]
mod nested_tests;
#[cfg(test)]
mod sink_tests;
#[cfg(test)]
mod store_tests;
