#![tactic(auto)]
//! The tests of restarts: a service ends, and another begins with its catalog over its device.
//!
//! `rounds` makes random calls beside plain files (`game`), with a restart each 200 calls. `adopted` has files that a device holds already, `ended`
//! how a service ends.
//!
//! Floor: outside.

#[cfg(test)]
mod adopted;
#[cfg(test)]
mod calls;
#[cfg(test)]
mod chance;
#[cfg(test)]
mod checks;
#[cfg(test)]
mod disk;
#[cfg(test)]
mod ended;
#[cfg(test)]
mod game;
#[cfg(test)]
mod odd;
#[cfg(test)]
mod rounds;
