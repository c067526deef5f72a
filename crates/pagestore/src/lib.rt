#![tactic(auto)]
//! The pages of all files, each in a frame of its own.
//!
//! `pages` has them one by one, `page_fills` those that are being filled, `page_writes` those that are written back,
//! `page_flushes` the begin and the end of such a write, `page_io` those that the device reads or
//! writes in place, `page_removal` those that leave, `ranges` several of them, `span` where a
//! write's bytes go, `kept` one file of theirs, `counts` counts that end early, `guesses` where pages were found last,
//! and `layout` the sizes.
//!
//! Floor: core.

mod counts;
mod guesses;
mod kept;
mod layout;
mod page_fills;
mod page_flushes;
mod page_io;
mod page_removal;
mod page_writes;
mod pages;
mod ranges;
mod span;

pub use counts::has_more;
pub use layout::Layout;
pub use pages::{Pages, Reading};
pub use span::Span;
