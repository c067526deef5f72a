//! What is asked for.

ghost use Rattle.std.specs.Prelude.{IfNone, IfSome};
ghost use Rattle.overfile.specs.Asked.{AsksFor};

use textline::words::number;

/// The words after `over`.
#[derive(Clone, Copy)]
pub struct Options<'a> {
    /// The file that is the device.
    pub path: &'a str,
    /// How many of its bytes are the file that is served.
    pub size: u64,
}

impl<'a> Options<'a> {
    /// What the words ask for, where they are `PATH SIZE`.
    pub fn parse(words: &[&'a str]) -> Option<Options<'a>>
        ensures asked { IfSome result (AsksFor words.now) }
        ensures none { IfNone result ((o : Options) → ¬ (AsksFor words.now o)) }
    {
        if words.len() != 2 {
            return None;
        }
        Some(Options {
            path: words[0],
            size: number(words[1].as_bytes())?,
        })
    }
}
