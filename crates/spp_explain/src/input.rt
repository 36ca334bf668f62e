//! What is known of a run beside its line of fault.

use spp_request::Command;
use std::io::ErrorKind;

/// How many bytes at the front of an input are kept for an explanation.
pub const FRONT: usize = 1 << 20;

/// What is known of an input, or of the output.
#[derive(Clone, Copy)]
pub struct Input<'a> {
    /// What it is called.
    pub name: &'a str,
    /// The bytes that came first, at most [`FRONT`] of them.
    pub front: &'a [u8],
    /// How many bytes came.
    pub len: u64,
    /// Why it can't be opened, read or written, where the system told.
    pub failure: Option<ErrorKind>,
}

/// What is known of a run.
#[derive(Clone, Copy)]
pub struct Run<'a> {
    /// What was asked for.
    pub command: Command,
    /// Its first input.
    pub first: Input<'a>,
    /// Its second, if it has one.
    pub second: Input<'a>,
    /// Its output.
    pub output: Input<'a>,
}
