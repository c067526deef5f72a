//! A cache in C's hands.

ghost use Rattle.std.specs.Prelude.{◌≡◌};
ghost use Rattle.std.specs.Option.{MatchOption};
ghost use Rattle.std.specs.declared.option.Option.{Option};
ghost use Rattle.std.specs.declared.option.Option.TheVariants.{None, Some};
ghost use Rattle.std.specs.Coded.{coded_option};
ghost use Rattle.pcache_c.specs.declared.cache.Cache.{Cache};
ghost use Rattle.pcache_c.specs.Owned.{held_owns};
ghost use Rattle.pcache_c.specs.contracts.cache.Cache.{the_row};

use crate::cache::Cache;
use loosened::Loose;
use std::alloc::Global;
use std::marker::Model;
use std::ptr::null_mut;

/// A cache, or none: `struct pcache`. C makes one of zero bytes.
#[repr(C)]
pub struct Held {
    full: bool,
    at: *mut u8,
    pub ghost value: { Option Cache } by { coded_option the_row.coded },
}

impl Model for Held {
    ghost also_owns = { λ h. held_owns the_row h.full h.at h.value };
}

impl Held {
    /// The cache as C keeps it.
    fn of(cache: Loose<Cache, Global>) -> Held
        ensures { result.value ≡ Some cache.value }
    {
        let Loose { at, alloc: _ } = cache;
        Held {
            full: true,
            at: at as *mut u8,
        }
    }

    fn empty() -> Held
        ensures { result.value ≡ None }
    {
        Held {
            full: false,
            at: null_mut(),
        }
    }

    /// What it holds, as the library keeps it.
    fn take(self, alloc: Global) -> Option<Loose<Cache, Global>>
        ensures { MatchOption result (self.value ≡ None) (λ l. self.value ≡ Some l.value) }
    {
        let Held { full, at } = self;
        if full {
            return Some(Loose {
                at: at as *mut Cache,
                alloc,
            });
        }
        None
    }

    /// Takes the cache out, where there is one.
    pub fn take_out(&mut self, alloc: Global) -> Option<Box<Cache>>
        ensures taken { MatchOption result (self.old.value ≡ None) (λ b. self.old.value ≡ Some b.value) }
        ensures left { self.new.value ≡ None }
    {
        let held = std::mem::replace(self, Held::empty());
        match held.take(alloc) {
            Some(loose) => Some(loose.into_box()),
            None => None,
        }
    }

    /// Puts a cache in, and frees the one that was there.
    pub fn put_in(&mut self, alloc: Global, cache: Box<Cache>)
        ensures { self.new.value ≡ Some cache.value }
    {
        let old = std::mem::replace(self, Held::of(Loose::of(cache)));
        if let Some(loose) = old.take(alloc) {
            free(loose);
        }
    }
}

/// Frees a cache. By a call, since it wants the room of a cache on the stack, which each call would take else.
#[inline(never)]
fn free(cache: Loose<Cache, Global>) {
    drop(cache.into_box());
}
