//! What a proof keeps of one recording.

/// A recording: its code, and whether it raised the counter. Lists of these stand in proofs alone.
#[derive(Clone, Copy)]
pub struct Recording {
    pub code: u16,
    pub raises: bool,
}
