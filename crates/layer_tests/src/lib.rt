//! Tests of what no case of `conform` can say: objects that fail between two calls, and generic code at a type.
#![tactic(auto)]

#[cfg(test)]
mod build_tests;
#[cfg(test)]
mod given;
#[cfg(test)]
mod partition_tests;
#[cfg(test)]
mod row_tests;
#[cfg(test)]
mod sink_tests;
#[cfg(test)]
mod store_tests;
