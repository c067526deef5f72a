//! What a request does.

/// What a request does with its page: reads it from the device, or writes it there.
#[derive(Clone, Copy, PartialEq, Eq, Debug)]
pub enum Kind {
    Fill,
    Flush,
}
