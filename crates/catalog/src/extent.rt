//! Pages of a file that stand side by side on a device.

use pc_types::{BlockNo, PageIndex};
use thiserror::Error;

/// Pages of a file whose blocks stand side by side, in the order of the pages. All but the last are whole.
#[derive(Clone, Copy, PartialEq, Eq, Debug)]
pub struct Extent {
    /// The first page.
    pub first: PageIndex,
    /// The first page's block.
    pub block: BlockNo,
    /// How many bytes, from the first block's first byte on. What the last block has past them is not the file's.
    pub bytes: u64,
}

/// Why a catalog doesn't take a file or an extent.
#[derive(Clone, Copy, PartialEq, Eq, Debug, Error)]
pub enum Misfit {
    #[error("the catalog has 64 files already")]
    TooManyFiles,
    #[error("a file has more than 2^40 bytes")]
    TooLarge,
    #[error("no file of the catalog has the number")]
    NoSuchFile,
    #[error("an extent has no bytes")]
    Empty,
    #[error("an extent ends past its file's size")]
    PastSize,
    #[error("the extents of a file overlap, or don't come in the order of their pages")]
    OutOfOrder,
    #[error("an extent ends past the device's last block")]
    PastDevice,
    #[error("a block is of two pages")]
    BlockTwice,
    #[error("no memory is left: free some and try again")]
    Memory,
}
