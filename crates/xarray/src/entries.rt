//! The entries of a range of indexes, one after another in rising order. The walk keeps the node that it has come to and the one above,
//! so most of its steps read that node alone, and the others go up from it (xas_for_each and xas_for_each_marked of Linux; decision
//! 128).
ghost use Rattle.std.specs.Prelude.{◌≡◌, map as map_list};
ghost use Rattle.std.specs.Iterator.{YieldsFirst, item_count};
ghost use Rattle.xarray.specs.MarkedArray.{found_of, entries_in};
ghost use Rattle.xarray.specs.View.{ranges_of};
ghost use Rattle.xarray.specs.Walks.{kind_of};

use crate::entry::{Found, Mark};
use crate::ranged::{Ranged, index_after};
use radix::{Onward, Position, Twig};
use std::marker::Model;

/// The entries whose ranges meet a range of indexes, seen as the list of those that are left.
#[derive(Drop)]
pub struct Entries<'a> {
    ranged: &'a Ranged,
    /// Only the entries with this mark, if one is given.
    mark: Option<Mark>,
    /// Where the walk goes on: no entry begins before and ends past it. None where it is over.
    next: Option<u64>,
    to: u64,
    /// Where the walk stands, if the entry before `next` ends at a slot of the lowest level.
    twig: Option<Twig<'a>>,
    /// Else the last slot of that entry, if there is one.
    slot: Option<Position>,
}

impl<'a> Model for Entries<'a> {
    ghost use Rattle.std.specs.Prelude.{List};
    ghost use Rattle.xarray.specs.declared.entry.Found.{Found as FoundEntry};
    ghost use Rattle.xarray.specs.View.{ranges_of};
    ghost use Rattle.xarray.specs.Walks.{IsPlace, left};

    ghost Value = { List FoundEntry };

    ghost view = { λ it. left it.mark (ranges_of it.ranged.now) it.next it.to };

    ghost invariant = { λ it. IsPlace it.ranged.now it.mark it.next it.to it.twig it.slot };
}

impl<'a> Entries<'a> {
    /// The entries with the mark, or all where none is given.
    #[inline(always)]
    pub(crate) fn new(ranged: &'a Ranged, mark: Option<Mark>, from: u64, to: u64) -> Entries<'a>
        ensures { result ≡ map_list found_of (entries_in (kind_of mark) (ranges_of ranged.now) from to) }
    {
        let next = if from > to {
            None
        } else {
            Some(ranged.start(from))
        };
        Entries {
            ranged,
            mark,
            next,
            to,
            twig: None,
            slot: None,
        }
    }
}

impl<'a> Iterator for Entries<'a> {
    type Item = Found;

    ghost next_gives = { YieldsFirst (λ rest. rest) };

    ghost remaining = { item_count (λ rest. rest) };

    #[inline(always)]
    fn next(&mut self) -> Option<Found> {
        let from = self.next?;
        if let Some(twig) = self.twig
            && let Some(onward) = self.ranged.next_on(twig, from)
        {
            let Onward { twig, place, value } = onward;
            if place > self.to {
                self.next = None;
                return None;
            }
            self.next = index_after(place, self.to);
            self.twig = Some(twig);
            return Some(Found {
                first: place,
                order: 0,
                value,
            });
        }
        let Some(step) = self
            .ranged
            .step(self.twig, self.slot, from, self.to, self.mark)
        else {
            self.next = None;
            return None;
        };
        self.next = step.next;
        self.twig = step.twig;
        self.slot = Some(step.slot);
        Some(step.found)
    }
}
