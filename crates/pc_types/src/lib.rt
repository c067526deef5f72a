#![tactic(auto)]
//! What every crate of the page cache speaks of: named numbers, tags, a cache's sizes, and refusals.
//!
//! A `Geometry` keeps its limits, a set of tags is a set, and each refusal has its number. The definitions of plain
//! files, by which the whole cache is judged, are in `specs/Files.antt`.
//!
//! `limits` has every limit once, `ids` the named numbers, `geometry` the sizes, `kind` what a request does, `tags` the tag
//! sets, `refusal` and `error_code` what a call answers where it does nothing, `bytes` the bytes that events carry.
//!
//! Floor: ground.

pub mod bytes;
pub mod error_code;
pub mod geometry;
pub mod ids;
pub mod kind;
pub mod limits;
pub mod refusal;
pub mod tags;

pub use bytes::Bytes;
pub use error_code::ErrCode;
pub use geometry::Geometry;
pub use ids::{BlockNo, FileId, FrameId, HandleId, PageIndex, Serial, SyncId};
pub use kind::Kind;
pub use refusal::Refusal;
pub use tags::{Tag, Tags};
