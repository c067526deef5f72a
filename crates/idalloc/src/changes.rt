//! A number is used, or given back.
ghost use Rattle.std.specs.Prelude.{◌≡◌, ◌≢◌, ℕ, ◌+◌, ◌/◌, ◌^◌, ◌<◌, ◌↔◌, Some, None, Err, false, MatchBool, OnOk, OnErr, IsOkUnless};
ghost use Rattle.pc_types.specs.declared.refusal.Refusal.{Refusal};
ghost use Rattle.std.specs.FinMap as map;
ghost use Rattle.std.specs.FinSet as set;
ghost use Rattle.idalloc.specs.Bitmaps.{FollowsFull, IsTidy, OpensBehind, full, has_number, numbers};

use crate::bitmaps::Bitmaps;
use crate::bits::{FULL, has_bit, with_bit, without_bit};
use crate::search::{NUMBERS, Unused};
use pc_types::Refusal;

/// The index of the last bitmap.
const LAST_INDEX: u64 = u64::MAX / 32;

/// Makes an unused number used.
pub(crate) fn take(bitmaps: &mut Bitmaps, unused: Unused) -> Result<(), Refusal>
    requires tidy { IsTidy bitmaps.old None }
    requires bitmap { unused.bitmap ≡ map.get bitmaps.old (unused.number / 32) }
    requires clear { has_number bitmaps.old unused.number ≡ false }
    ensures taken { OnOk result (IsTidy bitmaps.new None × (numbers bitmaps.new ≡ set.insert (numbers bitmaps.old) unused.number)) }
    ensures refused { OnErr result (bitmaps.new ≡ bitmaps.old) }
    ensures memory { IsOkUnless result Refusal.Memory }
{
    let index = unused.number / NUMBERS;
    let place = (unused.number % NUMBERS) as u32;
    let Some(before) = unused.bitmap else {
        return bitmaps.insert(index, with_bit(0, place));
    };
    let bits = with_bit(before, place);
    if bits == FULL {
        return fill(bitmaps, index, before);
    }
    bitmaps.replace(index, before, bits);
    Ok(())
}

/// A bitmap with room becomes full.
fn fill(bitmaps: &mut Bitmaps, index: u64, before: u32) -> Result<(), Refusal>
    requires tidy { IsTidy bitmaps.old None }
    requires there { map.get bitmaps.old index ≡ Some before }
    requires room { before ≢ full }
    requires index { index < 2 ^ 59 }
    ensures filled { OnOk result (IsTidy bitmaps.new None × ((q : ℕ) → has_number bitmaps.new q ≡ has_number (map.insert bitmaps.old index full) q)) }
    ensures refused { OnErr result (bitmaps.new ≡ bitmaps.old) }
    ensures memory { IsOkUnless result Refusal.Memory }
{
    open_behind(bitmaps, index)?;
    bitmaps.replace(index, before, FULL);
    Ok(())
}

/// A bitmap comes to stand behind an index, where none does yet: so the one at the index may become full.
fn open_behind(bitmaps: &mut Bitmaps, index: u64) -> Result<(), Refusal>
    requires tidy { IsTidy bitmaps.old None }
    requires index { index < 2 ^ 59 }
    ensures opened { OnOk result (OpensBehind bitmaps.old bitmaps.new index) }
    ensures refused { OnErr result (bitmaps.new ≡ bitmaps.old) }
    ensures memory { IsOkUnless result Refusal.Memory }
{
    if index == LAST_INDEX || bitmaps.get(index + 1).is_some() {
        return Ok(());
    }
    bitmaps.insert(index + 1, 0)
}

/// Makes a used number unused. It takes no memory.
pub(crate) fn give_back(bitmaps: &mut Bitmaps, number: u64) -> Result<(), Refusal>
    requires { IsTidy bitmaps.old None }
    ensures freed { OnOk result (IsTidy bitmaps.new None × (numbers bitmaps.new ≡ set.remove (numbers bitmaps.old) number)) }
    ensures unused { result ≡ Err Refusal.NoEntry ↔ has_number bitmaps.old number ≡ false }
    ensures refused { OnErr result (bitmaps.new ≡ bitmaps.old) }
    ensures only { IsOkUnless result Refusal.NoEntry }
{
    let index = number / NUMBERS;
    let place = (number % NUMBERS) as u32;
    let Some(before) = bitmaps.get(index) else {
        return Err(Refusal::NoEntry);
    };
    if !has_bit(before, place) {
        return Err(Refusal::NoEntry);
    }
    shrink(bitmaps, index, before, without_bit(before, place));
    Ok(())
}

/// A bitmap becomes one with room. Bitmaps that have no number and follow no full one go.
fn shrink(bitmaps: &mut Bitmaps, index: u64, before: u32, bits: u32)
    requires tidy { IsTidy bitmaps.old None }
    requires there { map.get bitmaps.old index ≡ Some before }
    requires room { bits ≢ full }
    requires some { before ≡ full → bits ≢ 0 }
    requires index { index < 2 ^ 59 }
    ensures tidy { IsTidy bitmaps.new None }
    ensures same { (q : ℕ) → has_number bitmaps.new q ≡ has_number (map.insert bitmaps.old index bits) q }
{
    bitmaps.replace(index, before, bits);
    if before == FULL {
        drop_idle(bitmaps, index + 1);
    } else if bits == 0 {
        drop_idle(bitmaps, index);
    }
}

/// The bitmap at an index goes, if it has no number and follows no full one.
fn drop_idle(bitmaps: &mut Bitmaps, index: u64)
    requires { IsTidy bitmaps.old (Some index) }
    ensures tidy { IsTidy bitmaps.new None }
    ensures same { (q : ℕ) → has_number bitmaps.new q ≡ has_number bitmaps.old q }
{
    if is_idle(bitmaps, index) {
        bitmaps.remove(index);
    }
}

fn is_idle(bitmaps: &Bitmaps, index: u64) -> bool
    ensures { MatchBool result ((map.get bitmaps.now index ≡ Some 0) × (FollowsFull bitmaps.now index → ⊥)) (map.get bitmaps.now index ≡ Some 0 → FollowsFull bitmaps.now index) }
{
    is_bitmap(bitmaps.get(index), 0) && !follows_full(bitmaps, index)
}

fn follows_full(bitmaps: &Bitmaps, index: u64) -> bool
    ensures { MatchBool result (FollowsFull bitmaps.now index) (FollowsFull bitmaps.now index → ⊥) }
{
    index > 0 && is_bitmap(bitmaps.get(index - 1), FULL)
}

fn is_bitmap(bitmap: Option<u32>, bits: u32) -> bool
    ensures { MatchBool result (bitmap ≡ Some bits) (bitmap ≢ Some bits) }
{
    bitmap == Some(bits)
}
