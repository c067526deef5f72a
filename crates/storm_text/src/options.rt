//! What a storm is asked for.

ghost use Rattle.std.specs.Prelude.{◌<◌, ◌≤◌, ℕ, IfNone, IfSome};
ghost use Rattle.textline.specs.Words.{IsNumber};
ghost use Rattle.storm_text.specs.Asked.{AsksFor, AsksForShards, IsNumberUpTo};

use textline::words::number;

/// The most shards.
const MAX_SHARDS: u64 = 16;

/// The most callers, and the most calls of each.
const MAX_THREADS: u64 = 16;

const MAX_STEPS: u64 = 1_000;

/// A storm's arguments.
#[derive(Clone, Copy)]
pub struct Options<'a> {
    /// How many callers there are.
    pub threads: u64,
    /// How many calls each of them makes.
    pub steps: u64,
    /// The file that is the device, or none for memory.
    pub path: Option<&'a str>,
}

impl<'a> Options<'a> {
    /// The options that the words after `storm` ask for, where they are `THREADS STEPS [PATH]`.
    pub fn parse(words: &[&'a str]) -> Option<Options<'a>>
        ensures asked { IfSome result (AsksFor words.now) }
        ensures none { IfNone result ((o : Options) → ¬ (AsksFor words.now o)) }
    {
        if words.len() < 2 || words.len() > 3 {
            return None;
        }
        Some(Options {
            threads: number_up_to(words[0], MAX_THREADS)?,
            steps: number_up_to(words[1], MAX_STEPS)?,
            path: words.get(2).copied(),
        })
    }
}

/// The arguments of a storm over a cache of shards.
#[derive(Clone, Copy)]
pub struct ShardOptions {
    /// How many shards there are.
    pub shards: u64,
    /// How many callers there are.
    pub threads: u64,
    /// How many calls each of them makes.
    pub steps: u64,
}

impl ShardOptions {
    /// The options that the words after `shards` ask for, where they are `SHARDS THREADS STEPS`.
    pub fn parse(words: &[&str]) -> Option<ShardOptions>
        ensures asked { IfSome result (AsksForShards words.now) }
        ensures none { IfNone result ((o : ShardOptions) → ¬ (AsksForShards words.now o)) }
    {
        if words.len() != 3 {
            return None;
        }
        Some(ShardOptions {
            shards: number_up_to(words[0], MAX_SHARDS)?,
            threads: number_up_to(words[1], MAX_THREADS)?,
            steps: number_up_to(words[2], MAX_STEPS)?,
        })
    }
}

/// The number that a word is, where it is one from 1 to `most`.
#[tactic(auto, using(crate::proofs::OneNumber::one_number))]
fn number_up_to(word: &str, most: u64) -> Option<u64>
    ensures value { IfSome result (IsNumberUpTo most word.now) }
    ensures none { IfNone result ((n : ℕ) → ¬ (IsNumberUpTo most word.now n)) }
{
    let number = number(word.as_bytes())?;
    if number == 0 || number > most {
        return None;
    }
    Some(number)
}
