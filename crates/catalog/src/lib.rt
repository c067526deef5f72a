#![tactic(auto)]
//! Files that stand on a device already: how long each is, and where its pages' blocks lie.
//!
//! A catalog is made for a device with so many blocks of so many bytes. Files are added one after the other, and a file's
//! extents in the order of its pages. An extent that can't be is refused with the reason, and the catalog stays as it was.
//! A page that no extent has is a hole: it reads as zeros.
//!
//! A catalog reads no device: that the blocks have the files' bytes is left to who adds them. It takes memory and time by
//! the page, since each page's block is kept by itself.
//!
//! `catalog` has the files, `extent` the extents and why one is refused.
//!
//! Floor: tables.

mod catalog;
mod extent;

pub use catalog::Catalog;
pub use extent::{Extent, Misfit};
