#![tactic(auto)]
//! What the programs that read a language line by line have in common.
//!
//! `lines` fetches the lines of a reader, each with its number, and hands on what was printed before it may wait for more;
//! `words` takes a line apart into words, and says which number or which bytes a word is; `print` prints an answer on a line of
//! its own; `stop` says why a run ends early, and with which status. `find` looks for a byte.
//!
//! A clause says of each line and each word which one it is, and of a word that is refused that it is no number or no bytes; and
//! of a line whose printing failed that a beginning of it was written.
//!
//! Floor: programs.

pub mod find;
pub mod lines;
pub mod print;
pub mod stop;
pub mod words;

pub use lines::{Fetched, Lines, is_blank};
pub use print::{Printer, flush, print_line};
pub use stop::Stop;
pub use words::{Fault, Words, numbers};
