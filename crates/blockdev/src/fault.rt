//! A call that fails.

use pc_types::ErrCode;

/// What a write that fails leaves in its block. To a read both mean the same.
#[derive(Clone, Copy, PartialEq, Eq, Debug)]
pub enum FaultEffect {
    /// The block keeps its bytes.
    Old,
    /// The block has the new bytes, and only the answer went wrong.
    New,
}

/// A fault of one call: the code that it answers, and what a write leaves.
#[derive(Clone, Copy, PartialEq, Eq, Debug)]
pub struct Fault {
    pub code: ErrCode,
    pub effect: FaultEffect,
}
