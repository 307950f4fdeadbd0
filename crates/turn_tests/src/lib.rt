//! Tests of the turn board over a value that keeps a list of numbers.
#![tactic(auto)]

#[cfg(test)]
mod notes;
#[cfg(test)]
mod turn_tests;
