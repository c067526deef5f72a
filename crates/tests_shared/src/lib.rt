#![tactic(auto)]
//! Worked rows of the shared cache. They are a crate of their own, since a crate with tests is proved once more beside them.
//!
//! Floor: outside.

#[cfg(test)]
mod era_rows;
#[cfg(test)]
mod history_rows;
#[cfg(test)]
mod long_rows;
#[cfg(test)]
mod restart_rows;
#[cfg(test)]
mod rows;
#[cfg(test)]
mod space_rows;
#[cfg(test)]
mod stop_rows;
#[cfg(test)]
mod thread_rows;
#[cfg(test)]
mod worker_rows;
