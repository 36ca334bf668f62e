//! Tests of the figures and tables of runs, by each way to them.
#![tactic(auto)]

#[cfg(test)]
mod changed;
#[cfg(test)]
mod frame;
#[cfg(test)]
mod maxplus;
#[cfg(test)]
mod reference;
#[cfg(test)]
mod serial;
#[cfg(test)]
mod site;
#[cfg(test)]
mod summary;
#[cfg(test)]
mod ways;
#[cfg(test)]
mod worked;
