//! Tests of what the spawns of call sites cost, and of the order in which sites are told.
#![tactic(auto)]

#[cfg(test)]
mod advice;
