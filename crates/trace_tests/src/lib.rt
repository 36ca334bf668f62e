//! Tests of what lies below the profiler: the bytes of traces, their text form, nesting, and cuts.
#![tactic(auto)]

#[cfg(test)]
mod compact;
#[cfg(test)]
mod cut;
#[cfg(test)]
mod event;
#[cfg(test)]
mod lending;
#[cfg(test)]
mod text;
