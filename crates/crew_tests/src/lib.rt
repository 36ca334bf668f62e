//! Tests of the answers that worker threads make, of the jobs that they share, and of how they share them.
#![tactic(auto)]

#[cfg(test)]
mod answers;
#[cfg(test)]
mod begins;
#[cfg(test)]
mod calls;
#[cfg(test)]
mod choices;
#[cfg(test)]
mod compact;
#[cfg(test)]
mod counting;
#[cfg(test)]
mod faults;
#[cfg(test)]
mod gates;
#[cfg(test)]
mod orders;
#[cfg(test)]
mod parts;
#[cfg(test)]
mod rounds;
#[cfg(test)]
mod settled;
#[cfg(test)]
mod traces;
#[cfg(test)]
mod worked;
