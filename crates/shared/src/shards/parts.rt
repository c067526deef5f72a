//! The parts of a cache of shards, made at once.

ghost use Rattle.std.specs.FinMap as map;
ghost use Rattle.std.specs.Prelude.{map as each};
ghost use Rattle.std.specs.Prelude.{◌≡◌, ◌≢◌, ◌<◌, ◌≤◌, ◌+◌, ◌++◌, ◌∷◌, [], ℕ, All, IfErr, IfOk, IsOk, OnOk, Some, drop, if◌then◌else◌, true, length, vec_capacity, vec_len};
ghost use Rattle.catalog.specs.Cataloged.{fits};
ghost use Rattle.held.specs.Keeps.{IsLocked};
ghost use Rattle.held.specs.Shown.{AreFresh};
ghost use Rattle.machine.specs.Catalogs.{IsCatalog, adopted};
ghost use Rattle.pc_types.specs.declared.refusal.Refusal.TheVariants.{BadConfig, Memory};
ghost use Rattle.shared.specs.Keeps.{AreBlocksOf, IsDisk};
ghost use Rattle.shared.specs.ShardConfigs.{is_config};
ghost use Rattle.shared.specs.ShardNames.{CacheNames, names_at};
ghost use Rattle.shared.specs.ShardParts.{AllBoth, AllFirst, IsMadeOf};
ghost use Rattle.shared.specs.ShardSeats.{AreCallers, AreSeated};
ghost use Rattle.shared.specs.ShardWorkers.{IsFirstOf};
ghost use Rattle.shared.specs.Workers.{IsWorkerOf};

use crate::cache::Parts;
use crate::shards::config::is_config;
use crate::shards::rows::{seat_all, without_shards};
use crate::shards::seat::ShardSeat;
use blockdev::BlockDevice;
use catalog::Catalog;
use held::log::Seat;
use pc_types::{Geometry, Refusal};
use std::alloc::Global;
use std::marker::Model;
use std::sync::Wait;
use trail::Trail;

/// What a shard is made of.
#[derive(Drop)]
pub struct Source<D, T> {
    pub name: u64,
    // that stand on its device; `Catalog::new` has none
    pub files: Catalog,
    pub trail: T,
    pub device: D,
}

/// The parts of one shard's cache, as they were made.
#[derive(Drop)]
pub struct OneParts<D: BlockDevice, T: Trail> {
    parts: Parts<D, T>,
}

impl<D: BlockDevice, T: Trail> Model for OneParts<D, T> {
    ghost use Rattle.std.specs.FinMap as map;
    ghost use Rattle.std.specs.Prelude.{◌≡◌, ◌-◌, [], Some, true};
    ghost use Rattle.held.specs.Keeps.{IsLocked};
    ghost use Rattle.held.specs.Shown.{IsFresh};
    ghost use Rattle.machine.specs.Catalogs.{IsCatalog, adopted};
    ghost use Rattle.shared.specs.Keeps.{AreBlocksOf, IsDisk, begun_with};
    ghost use Rattle.shared.specs.Workers.{IsWorkerOf, company_of, popped_by, pushed_by, seat_of};
    ghost use Rattle.shared.specs.ShardNames.{CacheNames};
    ghost use Rattle.std.specs.Coded.{codes, coded_ℕ, coded×};
    ghost use Rattle.atomic_table.specs.Seated.{table_id_coded};
    ghost use Rattle.pc_types.specs.Spots.{Spot, place_cmp, spot_code};

    ghost Value = { CacheNames };

    ghost coded = { Prim.hlevel (codes, table_id_coded, map.code {X = Spot} {R = place_cmp} (coded× coded_ℕ coded_ℕ) spot_code) };

    ghost view = { λ o. record {
      name = o.parts.name;
      table = o.parts.held.log.table;
      board = o.parts.board;
      sizes = o.parts.geometry;
      files = begun_with o.parts.held.core.state;
      seats = o.parts.held.log.made;
      whole = o.parts.held.log.room;
      blocks = o.parts.deeds.blocks;
      calls = (D.told o.parts.device).calls;
      deeds = o.parts.deeds.table;
      told = o.parts.deeds.told;
      ring = Some o.parts.ring;
    } };

    ghost invariant = { λ o.
        IsLocked o.parts.name o.parts.held.log.table o.parts.board o.parts.geometry o.parts.held.log.made o.parts.held.log.room o.parts.held
        × (map.len o.parts.held.core.state.requests ≡ 0)
        × ((o.parts.held.log.history ≡ []) × (o.parts.held.core.state ≡ adopted o.parts.geometry o.parts.name (begun_with o.parts.held.core.state)))
        × IsCatalog o.parts.geometry (begun_with o.parts.held.core.state)
        × IsWorkerOf o.parts.ring o.parts.name o.parts.held.log.table o.parts.deeds.table o.parts.geometry o.parts.own
        × ((company_of o.parts.own ≡ (true, 0, 0)) × (popped_by o.parts.own ≡ []) × (pushed_by o.parts.own ≡ []))
        × IsFresh o.parts.held.log.table o.parts.name (seat_of o.parts.own) (o.parts.held.log.made - 1)
        × IsDisk o.parts.geometry (D.told o.parts.device)
        × AreBlocksOf o.parts.deeds.told o.parts.deeds.blocks (D.told o.parts.device) };
}

impl<D: BlockDevice, T: Trail> OneParts<D, T> {
    /// What they are, to make a cache of.
    pub(crate) fn into_parts(self) -> Parts<D, T>
        ensures named { (result.name ≡ self.name) × (result.geometry ≡ self.sizes) × (result.board ≡ self.board) }
        ensures state { IsLocked self.name self.table self.board self.sizes self.seats self.whole result.held }
        ensures idle { map.len result.held.core.state.requests ≡ 0 }
        ensures fresh { (result.held.log.history ≡ []) × (result.held.core.state ≡ adopted self.sizes self.name self.files) }
        ensures files { IsCatalog self.sizes self.files }
        ensures ring { self.ring ≡ Some result.ring }
        ensures own { IsWorkerOf result.ring self.name self.table self.deeds self.sizes result.own }
        ensures first { IsFirstOf self result.own }
        ensures device { IsDisk self.sizes (D.told result.device) }
        ensures deeds { (result.deeds.table ≡ self.deeds) × (result.deeds.told ≡ self.told) × (result.deeds.blocks ≡ self.blocks) }
        ensures blocks { AreBlocksOf self.told self.blocks (D.told result.device) }
        ensures calls { (D.told result.device).calls ≡ self.calls }
    {
        self.parts
    }
}

impl<D: BlockDevice, T: Trail + Drop> OneParts<D, T> {
    /// The name and the device, where no cache is made of them. The trail, which has no entry, goes, and the catalog.
    pub fn into_device(self) -> (u64, D)
        ensures named { result.0 ≡ self.name }
        ensures device { IsDisk self.sizes (D.told result.1) }
        ensures blocks { AreBlocksOf self.told self.blocks (D.told result.1) }
        ensures calls { (D.told result.1).calls ≡ self.calls }
    {
        let Parts { name, device, .. } = self.parts;
        (name, device)
    }

    /// Makes the parts of a cache, with so many seats.
    fn make<R: Wait>(
        rt: &R,
        alloc: Global,
        geometry: &Geometry,
        source: Source<D, T>,
        callers: u64,
    ) -> Result<(OneParts<D, T>, Vec<Seat>), (Refusal, Source<D, T>)>
        requires device { IsDisk geometry.now (D.told source.device) }
        requires callers { (0 < callers) × (callers ≤ 64) }
        requires fits { fits geometry.now source.files ≡ true }
        ensures made { IfOk result (λ r. IsMadeOf geometry.now callers source.name source.files.files (T.whole source.trail) (D.told source.device) r.0) }
        ensures seats { IfOk result (λ r. (vec_len r.1 ≡ callers) × AreFresh r.0.table r.0.name r.1.items) }
        ensures refused { IfErr result (λ e. e.0 ≡ Memory) }
        ensures back { IfErr result (λ e. e.1 ≡ source) }
    {
        let Source {
            name,
            files,
            trail,
            device,
        } = source;
        match Parts::over(rt, alloc, geometry, name, files, device, trail, callers) {
            Ok((parts, seats)) => Ok((OneParts { parts }, seats)),
            Err(unadopted) => {
                let source = Source {
                    name,
                    files: unadopted.catalog,
                    trail: unadopted.trail,
                    device: unadopted.device,
                };
                Err((unadopted.refusal, source))
            }
        }
    }
}

/// What a cache of shards is made of.
#[derive(Drop)]
pub struct ShardParts<D: BlockDevice, T: Trail> {
    pub(crate) parts: Vec<OneParts<D, T>>,
    // how many callers have seats
    pub(crate) callers: u64,
}

impl<D: BlockDevice, T: Trail> Model for ShardParts<D, T> {
    ghost use Rattle.std.specs.Prelude.{◌≡◌, ◌<◌, ◌≤◌, ◌+◌, All, List, vec_capacity, vec_len};
    ghost use Rattle.shared.specs.ShardNames.{CacheNames};
    ghost use Rattle.std.specs.FinMap as map;
    ghost use Rattle.std.specs.Coded.{codes, coded_ℕ, coded×};
    ghost use Rattle.atomic_table.specs.Seated.{table_id_coded};
    ghost use Rattle.pc_types.specs.Spots.{Spot, place_cmp, spot_code};

    ghost Value = { List CacheNames };

    ghost coded = { Prim.hlevel (codes, table_id_coded, map.code {X = Spot} {R = place_cmp} (coded× coded_ℕ coded_ℕ) spot_code) };

    ghost view = { λ p. p.parts.items };

    ghost invariant = { λ p. (0 < vec_len p.parts) × (vec_len p.parts ≤ 16) × All (λ n. n.seats ≡ p.callers + 1) p.parts.items };
}

/// What was to be among the parts of a cache of shards that were not made: what is left of its sources, and the parts of the shards before them.
#[derive(Drop)]
pub struct Unmade<D: BlockDevice, T: Trail> {
    pub refusal: Refusal,
    pub made: Vec<OneParts<D, T>>,
    pub left: Vec<Source<D, T>>,
}

impl<D: BlockDevice, T: Trail> ShardParts<D, T> {
    /// The parts of each shard's cache, in order, where no cache is made of them: `OneParts::into_device` gives the device back.
    pub fn into_parts(self) -> Vec<OneParts<D, T>>
        ensures { result.items ≡ self }
    {
        self.parts
    }

    /// How many shards it is for.
    pub(crate) fn count(&self) -> u64
        ensures { result ≡ length self.now }
    {
        self.parts.len() as u64
    }
}

impl<D: BlockDevice, T: Trail + Drop> ShardParts<D, T> {
    /// The parts of a cache of a shard for each source, over its files, and the seats of so many callers, numbered from 0. It reads nothing,
    /// so an old catalog or one of another device makes files of what stands there. Refused by `BadConfig` where there are no shards or more
    /// than 16, where two names are equal, where a catalog is for another block size or number of blocks, and where there are no callers or
    /// more than 64. Else by want of memory.
    #[tactic(auto, using(crate::proofs::ShardRowing::all_seated))]
    pub fn make<R: Wait>(
        rt: &R,
        alloc: Global,
        geometry: &Geometry,
        sources: Vec<Source<D, T>>,
        callers: u64,
    ) -> Result<(ShardParts<D, T>, Vec<ShardSeat>), Unmade<D, T>>
        requires devices { All (λ s. IsDisk geometry.now (D.told s.device)) sources.items }
        ensures made { IfOk result (λ r. AllBoth (λ n s. IsMadeOf geometry.now callers s.name s.files.files (T.whole s.trail) (D.told s.device) n) r.0 sources.items) }
        ensures seats { IfOk result (λ r. (vec_len r.1 ≡ callers) × AreCallers r.0 r.1.items) }
        ensures seated { IfOk result (λ r. All (AreSeated (names_at r.0)) r.1.items) }
        ensures config { OnOk result (is_config geometry.now (each (λ s. s.name) sources.items) (each (λ s. s.files) sources.items) callers ≡ true) }
        ensures refused { IfErr result (λ e. e.refusal ≡ (if is_config geometry.now (each (λ s. s.name) sources.items) (each (λ s. s.files) sources.items) callers then Memory else BadConfig)) }
        ensures back { IfErr result (λ e. each (λ n. n.name) e.made.items ++ each (λ s. s.name) e.left.items ≡ each (λ s. s.name) sources.items) }
        ensures made_of { IfErr result (λ e. AllFirst (λ n s. IsMadeOf geometry.now callers s.name s.files.files (T.whole s.trail) (D.told s.device) n) e.made.items sources.items) }
        ensures left { IfErr result (λ e. e.left.items ≡ drop (vec_len e.made) sources.items) }
        ensures untouched { IfErr result (λ e. e.refusal ≡ BadConfig → (e.left ≡ sources) × (e.made.items ≡ [])) }
    {
        if !is_config(geometry, &sources, callers) {
            return Err(Unmade {
                refusal: Refusal::BadConfig,
                made: Vec::new(alloc),
                left: sources,
            });
        }
        let Ok(made) = Vec::with_capacity(alloc, sources.len()) else {
            return Err(Unmade {
                refusal: Refusal::Memory,
                made: Vec::new(alloc),
                left: sources,
            });
        };
        let Ok(mut seats) = without_shards(alloc, callers) else {
            return Err(Unmade {
                refusal: Refusal::Memory,
                made,
                left: sources,
            });
        };
        match make_all(rt, alloc, geometry, sources, made, &mut seats) {
            Ok(parts) => Ok((ShardParts { parts, callers }, seats)),
            Err(unmade) => Err(unmade),
        }
    }
}

/// Makes the parts of a cache of each source, and seats each caller at it.
fn make_all<D: BlockDevice, T: Trail + Drop, R: Wait>(
    rt: &R,
    alloc: Global,
    geometry: &Geometry,
    mut left: Vec<Source<D, T>>,
    mut made: Vec<OneParts<D, T>>,
    seats: &mut Vec<ShardSeat>,
) -> Result<Vec<OneParts<D, T>>, Unmade<D, T>>
    requires devices { All (λ s. IsDisk geometry.now (D.told s.device)) left.items }
    requires fits { All (λ s. fits geometry.now s.files ≡ true) left.items }
    requires made { (made.items ≡ []) × (vec_len left ≤ vec_capacity made) }
    requires callers { (0 < vec_len seats.old) × (vec_len seats.old ≤ 64) }
    requires empty { All (λ row. row ≡ []) seats.old.items }
    ensures made { IfOk result (λ parts. AllBoth (λ n s. IsMadeOf geometry.now (vec_len seats.old) s.name s.files.files (T.whole s.trail) (D.told s.device) n) parts.items left.items) }
    ensures len { vec_len seats.new ≡ vec_len seats.old }
    ensures seated { IfOk result (λ parts. AreCallers parts.items seats.new.items) }
    ensures refused { IfErr result (λ e. e.refusal ≡ Memory) }
    ensures back { IfErr result (λ e. each (λ n. n.name) e.made.items ++ each (λ s. s.name) e.left.items ≡ each (λ s. s.name) left.items) }
    ensures made_of { IfErr result (λ e. AllFirst (λ n s. IsMadeOf geometry.now (vec_len seats.old) s.name s.files.files (T.whole s.trail) (D.told s.device) n) e.made.items left.items) }
    ensures left { IfErr result (λ e. e.left.items ≡ drop (vec_len e.made) left.items) }
{
    while !left.is_empty() {
        let source = left.remove(0);
        match OneParts::make(rt, alloc, geometry, source, seats.len() as u64) {
            Ok((one, own)) => {
                let seated = seat_all(seats, own);
                made.push_reserved(one);
                if seated.is_err() {
                    return Err(Unmade {
                        refusal: Refusal::Memory,
                        made,
                        left,
                    });
                }
            }
            Err((refusal, source)) => {
                let Ok(()) = left.insert(0, source) else {
                    unreachable!()
                };
                return Err(Unmade {
                    refusal,
                    made,
                    left,
                });
            }
        }
    }
    Ok(made)
}
