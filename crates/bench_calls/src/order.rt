//! The random order: a fixed permutation of the indexes.

use std::alloc::{AllocError, Global};

/// How many entries are timed.
pub const ENTRIES: u64 = 1_000_000;

/// The indexes below `ENTRIES`, each once, shuffled by a fixed generator (Fisher and Yates; Marsaglia's xorshift).
pub fn random_order(alloc: Global) -> Result<Vec<u64>, AllocError> {
    let mut order = Vec::with_capacity(alloc, ENTRIES as usize)?;
    for index in 0..ENTRIES {
        order.push(index)?;
    }
    shuffle(order.as_mut_slice());
    Ok(order)
}

fn shuffle(order: &mut [u64]) {
    let mut seed = 88_172_645_463_325_252_u64;
    for last in (1..order.len()).rev() {
        seed ^= seed << 13;
        seed ^= seed >> 7;
        seed ^= seed << 17;
        let chosen = (seed % (last as u64 + 1)) as usize;
        order.swap(last, chosen);
    }
}
