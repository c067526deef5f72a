//! The steps of a walk from entry to entry, by the twig that it has come to.
ghost use Rattle.std.specs.Prelude.{◌≡◌, ◌≢◌, ℕ, ◌+◌, ◌*◌, ◌/◌, ◌%◌, ◌<◌, None, Some, IfSome};
ghost use Rattle.slab.specs.Slab.{ContainsKey};
ghost use Rattle.radix.specs.Entries.{IsNextAt, IsSingle, StandsAt};
ghost use Rattle.radix.specs.Tree.{IsRooted, IsTree};
ghost use Rattle.radix.specs.Twigs.{IsAimed, IsLeftAbove, IsRest, IsTwig, mark_of};

use crate::bitmap::{bits_above, lowest, without_bit};
use crate::entry::{Onward, Rest, Twig};
use crate::node::Node;
use crate::slot::Slot;
use slab::Slab;

// What is left of a node after one of its slots.
#[inline]
fn rest_of(nodes: &Slab<Node>, key: usize, place: u64, mark: usize) -> Rest<'_>
    requires mark { mark < 4 }
    requires there { ContainsKey nodes.now key }
    ensures { (level : ℕ) → StandsAt nodes.now key level (place / 64) → IsRest nodes.now mark key level (place / 64) (place % 64 + 1) result }
{
    let node = &nodes[key];
    Rest {
        node,
        bits: bits_above(node.marks[mark], (place % 64) as u32),
    }
}

// What is left of the node above one of the lowest level, after that one.
#[inline]
fn rest_above(nodes: &Slab<Node>, head: usize, key: usize, mark: usize) -> Rest<'_>
    requires mark { mark < 4 }
    requires tree { IsTree nodes.now head }
    requires there { ContainsKey nodes.now key }
    ensures { (prefix : ℕ) → StandsAt nodes.now key 0 prefix → IsLeftAbove nodes.now mark prefix result }
{
    let node = &nodes[key];
    let Some(parent) = node.parent.key() else {
        return Rest { node, bits: 0 };
    };
    rest_of(nodes, parent, node.prefix, mark)
}

// The twig of a slot of the lowest level, for a walk over the entries after it.
#[inline]
pub(crate) fn twig_at(
    nodes: &Slab<Node>,
    head: usize,
    key: usize,
    place: u64,
    mark: usize,
) -> Twig<'_>
    requires mark { mark < 4 }
    requires tree { IsTree nodes.now head }
    requires stands { StandsAt nodes.now key 0 (place / 64) }
    ensures on { IsTwig nodes.now (place + 1) result }
    ensures mark { mark_of result ≡ mark }
{
    Twig {
        key,
        leaf: rest_of(nodes, key, place, mark),
        above: rest_above(nodes, head, key, mark),
        base: place / 64 * 64,
        mark,
    }
}

// The twig at the next node with an entry, where the node above has one more. What is read of a node on the way are its bits alone.
#[inline(always)]
fn turned<'a>(nodes: &'a Slab<Node>, twig: Twig<'a>, from: u64) -> Option<Twig<'a>>
    requires sound { IsRooted nodes.now }
    requires twig { IsTwig nodes.now from twig }
    requires over { twig.leaf.bits ≡ 0 }
    ensures aim { IfSome result (λ t. IsAimed nodes.now from t) }
    ensures mark { IfSome result (λ t. mark_of t ≡ mark_of twig.entry) }
{
    let above = twig.above;
    if above.bits == 0 {
        return None;
    }
    let offset = lowest(above.bits);
    let Slot::Child(key) = above.node.read(offset as usize) else {
        return None;
    };
    let node = &nodes[key];
    Some(Twig {
        key,
        leaf: Rest {
            node,
            bits: node.marks[twig.mark],
        },
        above: Rest {
            node: above.node,
            bits: without_bit(above.bits, offset),
        },
        // Not by the node's own place: that lies in another line than its bits.
        base: twig.base / 4096 * 4096 + offset as u64 * 64,
        mark: twig.mark,
    })
}

// The twig at the node that has the next entry, if that is the twig's own or a later one below the node above.
#[inline(always)]
fn aim<'a>(nodes: &'a Slab<Node>, twig: Twig<'a>, from: u64) -> Option<Twig<'a>>
    requires sound { IsRooted nodes.now }
    requires twig { IsTwig nodes.now from twig }
    ensures aim { IfSome result (λ t. IsAimed nodes.now from t) }
    ensures mark { IfSome result (λ t. mark_of t ≡ mark_of twig.entry) }
{
    if twig.leaf.bits == 0 {
        return turned(nodes, twig, from);
    }
    Some(twig)
}

// The next entry, where the twig is at its node and it has one index, with the twig past it.
#[inline(always)]
fn taken<'a>(nodes: &'a Slab<Node>, twig: Twig<'a>, from: u64) -> Option<Onward<'a>>
    requires sound { IsRooted nodes.now }
    requires aim { IsAimed nodes.now from twig }
    ensures next { IfSome result (λ r. IsNextAt nodes.now (mark_of twig.entry) from r.place r.value) }
    ensures single { IfSome result (λ r. IsSingle nodes.now r.place) }
    ensures twig { IfSome result (λ r. IsTwig nodes.now (r.place + 1) r.twig) }
    ensures mark { IfSome result (λ r. mark_of r.twig ≡ mark_of twig.entry) }
{
    let Rest { node, bits } = twig.leaf;
    let offset = lowest(bits);
    let value = node.value(offset as usize);
    if !node.is_single(offset) {
        return None;
    }
    Some(Onward {
        twig: Twig {
            key: twig.key,
            leaf: Rest {
                node,
                bits: without_bit(bits, offset),
            },
            above: twig.above,
            base: twig.base,
            mark: twig.mark,
        },
        place: twig.base + offset as u64,
        value,
    })
}

// The lowest entry with the mark at an index or later, where it has one index and the twig leads to it.
#[inline(always)]
pub(crate) fn next_on<'a>(nodes: &'a Slab<Node>, twig: Twig<'a>, from: u64) -> Option<Onward<'a>>
    requires sound { IsRooted nodes.now }
    requires twig { IsTwig nodes.now from twig }
    ensures next { IfSome result (λ r. IsNextAt nodes.now (mark_of twig.entry) from r.place r.value) }
    ensures single { IfSome result (λ r. IsSingle nodes.now r.place) }
    ensures twig { IfSome result (λ r. IsTwig nodes.now (r.place + 1) r.twig) }
    ensures mark { IfSome result (λ r. mark_of r.twig ≡ mark_of twig.entry) }
{
    let Some(aimed) = aim(nodes, twig, from) else {
        return None;
    };
    taken(nodes, aimed, from)
}
