//! Tests of reports, and of whole runs of the program over devices.
#![tactic(auto)]

#[cfg(test)]
mod comparison;
#[cfg(test)]
mod report;
#[cfg(test)]
mod shell;
