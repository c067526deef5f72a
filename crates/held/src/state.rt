//! The state of a shared cache, as it lies under its lock: its core, its history, and the recorder of failed writes.

ghost use Rattle.std.specs.Prelude.{◌≡◌, ◌≢◌, ℕ, ◌↔◌, ◌⊎◌, ◌+◌, ◌<◌, ◌≤◌, ◌&&◌, nat_lt, nat_le, if◌then◌else◌, [], length, replicate, true, IfOk, IfErr, IsOk, IsErr, IsOkUnless, OnOk, All, Any, Some, vec_len, map};
ghost use mathlib.Core.List.{IsPrefix};
ghost use Rattle.errboard.specs.Views.{files, recorded_of, start_of};
ghost use Rattle.errseq.specs.Samples.{StandsFor, Owes, done_at};
ghost use Rattle.errseq.specs.Word.{sample_of};
ghost use Rattle.std.specs.Arc.{arc_value};
ghost use Rattle.catalog.specs.Cataloged as cataloged;
ghost use Rattle.held.specs.declared.views.View.TheVariants.{Keeper};
ghost use Rattle.machine.specs.Catalogs.{IsCatalog, adopted, no_catalog};
ghost use Rattle.machine.specs.Catalogs.{Catalog as Files};
ghost use Rattle.machine.specs.PageLists.{no_lists};
ghost use Rattle.pc_types.specs.Limits.{Sizes};
ghost use Rattle.machine.specs.State.{file_at};
ghost use Rattle.deeds.specs.Shown.{calls_of, known, uncalled};
ghost use Rattle.deeds.specs.declared.views.Place.TheVariants.{Home};
ghost use Rattle.runs.specs.World.{World};
ghost use Rattle.tied.specs.Tied.{IsCovered, IsHonest, Tied, ended_count};
ghost use Rattle.trail.specs.Honest.{MayBegin};
ghost use Rattle.trail.specs.History.{After};
ghost use Rattle.trail.specs.Room.{keeps_room, reserved};
ghost use Rattle.held.specs.Called.{Only};
ghost use Rattle.held.specs.Keeps.{IsLocked, room_after};
ghost use Rattle.held.specs.Shown.{AreFresh, IsFresh};
ghost use Rattle.held.specs.Views.{AreOfSeats, count_of};
ghost use Rattle.pc_types.specs.declared.refusal.Refusal.TheVariants.{BadConfig, Memory, NoSuchFile, Stranger};

use crate::log::{Log, Owned, Seat, are_all, are_named, opened};
use crate::naming::Naming;
use crate::views::Stand;
use cachecore::CacheCore;
use catalog::Catalog;
use deeds::sides::Desk;
use errboard::{Board, Pass, Recorder};
use pc_types::limits::MAX_SEATS;
use pc_types::{FileId, Geometry, Refusal};
use std::alloc::Global;
use std::marker::Model;
use std::sync::Arc;
use trail::Trail;

/// A cache with its history, before a type names it.
#[derive(Drop)]
pub struct Opened<T: Trail> {
    core: CacheCore,
    log: Log<T>,
    recorder: Recorder,
    alloc: Global,
}

impl<T: Trail> Model for Opened<T> {
    ghost use Rattle.std.specs.Coded.{codes};
    ghost use Rattle.atomic_table.specs.Seated.{table_id_coded};
    ghost use Rattle.cachecore.specs.Core.{core_code};
    ghost use Rattle.held.specs.Shown.{HeldSeen};
    ghost use Rattle.held.specs.Kept.{IsHeld};
    ghost use Rattle.machine.specs.Catalogs.{Catalog};

    ghost Value = { HeldSeen };

    ghost coded = { Prim.hlevel (codes, core_code, table_id_coded) };

    ghost view = { λ h. record { log = h.log; core = h.core; errors = h.recorder } };

    ghost invariant = { λ h. (files : Catalog) × IsHeld files h.log h.core.state };
}

impl<T: Trail> Opened<T> {
    /// A cache without files with its error board, seats numbered from 0 and one more seat. Refused by `BadConfig` where there is no seat
    /// or more than 64, and else by want of memory; the trail comes back then.
    pub fn new(
        alloc: Global,
        geometry: &Geometry,
        name: u64,
        trail: T,
        seats: u64,
    ) -> Result<(Opened<T>, Board, Vec<Seat>, Seat), (Refusal, T)>
        ensures few { OnOk result ((0 < seats) × (seats ≤ 64)) }
        ensures refused { IfErr result (λ e. e.0 ≡ (if nat_lt 0 seats && nat_le seats 64 then Memory else BadConfig)) }
        ensures back { IfErr result (λ e. e.1 ≡ trail) }
        ensures log { IfOk result (λ r. (r.0.log.name ≡ name) × (r.0.log.history ≡ []) × (r.0.log.room ≡ T.whole trail) × (r.0.log.made ≡ seats + 1)) }
        ensures core { IfOk result (λ r. r.0.core ≡ record { state = adopted geometry.now name no_catalog; lists = no_lists }) }
        ensures board { IfOk result (λ r. (r.0.errors.board ≡ r.1) × (r.0.errors.all ≡ replicate files [])) }
        ensures words { IfOk result (λ r. (r.0.errors.opening ≡ replicate files 0) × (r.0.errors.words ≡ replicate files 0)) }
        ensures seats { IfOk result (λ r. (vec_len r.2 ≡ seats) × AreFresh r.0.log.table name r.2.items) }
        ensures own { IfOk result (λ r. IsFresh r.0.log.table name r.3 seats) }
    {
        if seats == 0 || seats > MAX_SEATS {
            return Err((Refusal::BadConfig, trail));
        }
        let beside = match Beside::new(alloc, name, seats) {
            Ok(beside) => beside,
            Err(refusal) => return Err((refusal, trail)),
        };
        let Ok(core) = CacheCore::new(alloc, geometry, name) else {
            return Err((Refusal::Memory, trail));
        };
        Ok(beside.open(alloc, core, name, trail, seats))
    }

    /// The same of a cache with the catalog's files, which stand on its device. Refused by `BadConfig` also where the catalog is for another
    /// block size or number of blocks; catalog and trail come back.
    pub fn over(
        alloc: Global,
        geometry: &Geometry,
        name: u64,
        catalog: Catalog,
        trail: T,
        seats: u64,
    ) -> Result<(Opened<T>, Board, Vec<Seat>, Seat), (Refusal, Catalog, T)>
        ensures few { OnOk result ((0 < seats) × (seats ≤ 64) × (cataloged.fits geometry.now catalog ≡ true)) }
        ensures refused { IfErr result (λ e. e.0 ≡ (if nat_lt 0 seats && nat_le seats 64 && cataloged.fits geometry.now catalog then Memory else BadConfig)) }
        ensures back { IfErr result (λ e. (e.1 ≡ catalog) × (e.2 ≡ trail)) }
        ensures log { IfOk result (λ r. (r.0.log.name ≡ name) × (r.0.log.history ≡ []) × (r.0.log.room ≡ T.whole trail) × (r.0.log.made ≡ seats + 1)) }
        ensures core { IfOk result (λ r. r.0.core ≡ record { state = adopted geometry.now name catalog.files; lists = no_lists }) }
        ensures catalog { IfOk result (λ _. IsCatalog geometry.now catalog.files) }
        ensures board { IfOk result (λ r. (r.0.errors.board ≡ r.1) × (r.0.errors.all ≡ replicate files [])) }
        ensures words { IfOk result (λ r. (r.0.errors.opening ≡ replicate files 0) × (r.0.errors.words ≡ replicate files 0)) }
        ensures seats { IfOk result (λ r. (vec_len r.2 ≡ seats) × AreFresh r.0.log.table name r.2.items) }
        ensures own { IfOk result (λ r. IsFresh r.0.log.table name r.3 seats) }
    {
        // what is refused without memory comes first
        if seats == 0 || seats > MAX_SEATS || !catalog.is_for(geometry) {
            return Err((Refusal::BadConfig, catalog, trail));
        }
        let beside = match Beside::new(alloc, name, seats) {
            Ok(beside) => beside,
            Err(refusal) => return Err((refusal, catalog, trail)),
        };
        match CacheCore::over(alloc, geometry, name, catalog) {
            Ok(core) => Ok(beside.open(alloc, core, name, trail, seats)),
            Err((refusal, catalog)) => Err((refusal, catalog, trail)),
        }
    }
}

/// What stands beside the core but for the trail: all that memory is taken for.
#[derive(Drop)]
struct Beside {
    board: Board,
    recorder: Recorder,
    count: Arc<Owned, Global>,
    keeper: Stand,
    all: Vec<Seat>,
    own: Seat,
}

impl Beside {
    fn new(alloc: Global, name: u64, seats: u64) -> Result<Beside, Refusal>
        requires { seats ≤ 64 }
        ensures refused { IsOkUnless result Memory }
        ensures board { IfOk result (λ b. (b.recorder.board ≡ b.board) × (b.recorder.all ≡ replicate files [])) }
        ensures words { IfOk result (λ b. (b.recorder.opening ≡ replicate files 0) × (b.recorder.words ≡ replicate files 0)) }
        ensures table { IfOk result (λ b. ((arc_value b.count).shared.table_id ≡ b.keeper.table_id) × (b.keeper.table_id.words ≡ 1)) }
        ensures keeper { IfOk result (λ b. b.keeper.me ≡ (Keeper [] (seats + 1), [])) }
        ensures seats { IfOk result (λ b. (vec_len b.all ≡ seats) × AreFresh b.keeper.table_id name b.all.items) }
        ensures own { IfOk result (λ b. IsFresh b.keeper.table_id name b.own seats) }
    {
        let Ok((board, recorder)) = Board::new(alloc) else {
            return Err(Refusal::Memory);
        };
        let Ok((count, keeper, all, own)) = opened(alloc, name, seats) else {
            return Err(Refusal::Memory);
        };
        Ok(Beside {
            board,
            recorder,
            count,
            keeper,
            all,
            own,
        })
    }

    /// The cache with this core, which has made no event yet.
    fn open<T: Trail>(
        self,
        alloc: Global,
        core: CacheCore,
        name: u64,
        trail: T,
        seats: u64,
    ) -> (Opened<T>, Board, Vec<Seat>, Seat)
        requires few { seats ≤ 64 }
        requires table { ((arc_value self.count).shared.table_id ≡ self.keeper.table_id) × (self.keeper.table_id.words ≡ 1) }
        requires keeper { self.keeper.me ≡ (Keeper [] (seats + 1), []) }
        requires fresh { (sizes : Sizes) × (files : Files) × IsCatalog sizes files × (core.state ≡ adopted sizes name files) }
        ensures log { (result.0.log.name ≡ name) × (result.0.log.history ≡ []) × (result.0.log.room ≡ T.whole trail) × (result.0.log.made ≡ seats + 1) }
        ensures table { result.0.log.table ≡ self.keeper.table_id }
        ensures core { result.0.core ≡ core }
        ensures errors { result.0.errors ≡ self.recorder }
        ensures others { (result.1 ≡ self.board) × (result.2 ≡ self.all) × (result.3 ≡ self.own) }
    {
        let Beside {
            board,
            recorder,
            count,
            keeper,
            all,
            own,
        } = self;
        let opened = Opened {
            core,
            log: Log::of(name, count, keeper, seats, trail),
            recorder,
            alloc,
        };
        (opened, board, all, own)
    }
}

/// The state of the cache that B names.
#[derive(Drop)]
pub struct Held<B: Naming, T: Trail> {
    pub(crate) core: CacheCore,
    pub(crate) log: Log<T>,
    pub(crate) recorder: Recorder,
    pub(crate) alloc: Global,
    pub(crate) desk: Desk<B>,
}

impl<B: Naming, T: Trail> Model for Held<B, T> {
    ghost use Rattle.std.specs.Coded.{codes};
    ghost use Rattle.atomic_table.specs.Seated.{table_id_coded};
    ghost use Rattle.cachecore.specs.Core.{core_code};
    ghost use Rattle.held.specs.Shown.{HeldSeen};
    ghost use Rattle.held.specs.Keeps.{IsLocked};
    ghost use Rattle.held.specs.Kept.{IsHeld};
    ghost use Rattle.tied.specs.Tied.{IsTied};

    ghost Value = { HeldSeen };

    ghost coded = { Prim.hlevel (codes, core_code, table_id_coded) };

    ghost view = { λ h. record { log = h.log; core = h.core; errors = h.recorder } };

    ghost invariant = { λ h.
        (IsHeld B.files h.log h.core.state × IsLocked B.name B.table B.board B.sizes B.seats B.whole (record { log = h.log; core = h.core; errors = h.recorder }))
        × IsTied B.told B.files B.sizes B.name B.blocks h.log.history h.core.state h.desk };
}

impl<B: Naming, T: Trail> Held<B, T> {
    /// The cache under its name, with the desk of its device's deeds. It has the files that stand on the device, and all deeds are at home.
    pub fn of(opened: Opened<T>, desk: Desk<B>) -> Held<B, T>
        requires locked { IsLocked B.name B.table B.board B.sizes B.seats B.whole opened }
        requires fresh { (opened.log.history ≡ []) × (opened.core.state ≡ adopted B.sizes B.name B.files) }
        requires desk { desk ≡ map Home (map uncalled B.blocks) }
        requires count { length B.blocks ≡ B.sizes.blocks }
        requires files { IsCatalog B.sizes B.files }
        requires first { B.told ≡ true → MayBegin B.files B.sizes B.name B.blocks }
        ensures { result ≡ opened }
    {
        let Opened {
            core,
            log,
            recorder,
            alloc,
        } = opened;
        Held {
            core,
            log,
            recorder,
            alloc,
            desk,
        }
    }

    /// The core, to be read. All that is asked without an event is asked of it.
    pub fn core(&self) -> &CacheCore
        ensures core { result.now ≡ self.now.core }
        ensures legal { After B.files self.now.core.state.sizes self.now.core.state.name self.now.log.history self.now.core.state }
        ensures named { After B.files B.sizes B.name self.now.log.history self.now.core.state }

        // What a device did whose blocks are told.
        ensures honest { B.told ≡ true → (w : World) × IsHonest B.files B.sizes B.name B.blocks self.now.log.history w × (w.core ≡ self.now.core.state) }

        // The trail has room for the end of all that is in flight.
        ensures room { keeps_room self.now.log.room self.now.core.state.sizes.page (reserved self.now.core.state) ≡ true }

        // What the history leaves of the room that the trail had at first.
        ensures left { self.now.log.room ≡ room_after B.whole self.now.log.history }
    {
        &self.core
    }

    /// A pass of the file, for a handle that is to be opened.
    pub fn pass(&mut self, file: FileId) -> Result<Pass, Refusal>
        ensures same { self.new ≡ self.old }
        ensures made { IsOk result ↔ (file.0 < files) }
        ensures refused { IsOkUnless result NoSuchFile }
        ensures pass { IfOk result (λ p. (p.board ≡ B.board) × (p.file ≡ file.0) × (p.start ≡ start_of self.old.errors.opening file.0) × (p.known ≡ recorded_of self.old.errors.all file.0)) }
        ensures sampled { IfOk result (λ p. (loaded : ℕ) × StandsFor p.start loaded p.known × (p.since ≡ sample_of loaded) × (p.done ≡ done_at p.known loaded)) }
    {
        self.recorder.pass(file)
    }

    /// Lets a pass know all failed writes of its file. It polls nothing.
    pub fn level(&mut self, pass: &mut Pass)
        requires { pass.old.board ≡ B.board }
        ensures same { self.new ≡ self.old }
        ensures pass { pass.new ≡ record pass.old { known = pass.new.known } }
        ensures grows { IsPrefix pass.old.known pass.new.known }
        ensures recorded { pass.new.known ≡ recorded_of self.old.errors.all pass.old.file }
        ensures known { length pass.new.known ≡ (file_at self.old.core.state pass.new.file).failures }
        ensures owes { Owes (recorded_of self.old.errors.all pass.old.file) pass.old.done pass.old.since }
        ensures legal { After B.files B.sizes B.name self.old.log.history self.old.core.state }
    {
        self.recorder.level(pass)
    }

    /// Lets a seat see the history as it is. No event is made.
    pub fn show(&mut self, seat: &mut Seat)
        requires { seat.old.table ≡ B.table }
        ensures same { self.new ≡ self.old }
        ensures seen { seat.new ≡ record seat.old { list = self.old.log.history } }
        ensures only { Only (λ _. ⊥) seat.old seat.new }
        ensures legal { After B.files B.sizes B.name seat.new.list self.old.core.state }
    {
        // Lends that the history is legal.
        let _ = self.core();
        self.log.show(seat);
    }

    /// Takes a pass back. What it knew begins what was recorded.
    pub fn retire(&mut self, pass: Pass)
        requires { pass.board ≡ B.board }
        ensures same { self.new ≡ self.old }
        ensures begins { IsPrefix pass.known (recorded_of self.old.errors.all pass.file) }
        ensures owes { Owes (recorded_of self.old.errors.all pass.file) pass.done pass.since }
    {
        self.recorder.retire(pass)
    }

    /// The trail, the core and the desk, if all seats come back, the cache's own beside the others. Refused by `Stranger` if one is missing
    /// or of a cache of another name; all come back then, as they were.
    pub fn close(
        self,
        seats: Vec<Seat>,
        own: Seat,
    ) -> Result<(T, CacheCore, Desk<B>), (Refusal, Held<B, T>, Vec<Seat>, Seat)>
        requires came { All (λ s. s.name ≡ B.name → s.table ≡ B.table) seats.items }
        requires own { own.name ≡ B.name → own.table ≡ B.table }
        ensures refused { IsErr result ↔ ((vec_len seats + 1 ≢ B.seats) ⊎ Any (λ s. s.name ≢ B.name) seats.items ⊎ (own.name ≢ B.name)) }
        ensures err { IfErr result (λ e. (e.0 ≡ Stranger) × (e.1 ≡ self) × (e.2 ≡ seats) × (e.3 ≡ own)) }
        ensures trail { IfOk result (λ r. T.records r.0 self.log.history × (r.1 ≡ self.core) × After B.files r.1.state.sizes r.1.state.name self.log.history r.1.state) }
        ensures cache { IfOk result (λ r. T.cache r.0 ≡ Some B.name) }
        ensures core { IfOk result (λ r. (r.1.state.name ≡ B.name) × (r.1.state.sizes ≡ B.sizes)) }
        ensures desk { IfOk result (λ r. IsCovered r.1.state r.2) }
        ensures counted { IfOk result (λ r. calls_of (known r.2) ≡ ended_count self.log.history) }
        ensures tied { B.told ≡ true → IfOk result (λ r. Tied B.files B.sizes B.name B.blocks self.log.history r.1.state r.2) }
        ensures seats { OnOk result (All (λ s. IsPrefix s.list self.log.history × (s.count ≡ count_of s.number self.log.history)) seats.items) }
        ensures own { OnOk result (IsPrefix own.list self.log.history × (own.count ≡ count_of own.number self.log.history)) }
        ensures others { OnOk result (AreOfSeats B.seats self.log.history) }
    {
        let name = self.log.name();
        if own.name() != name
            || !are_all(seats.len() as u64, self.log.made())
            || !are_named(&seats, name)
        {
            return Err((Refusal::Stranger, self, seats, own));
        }
        let Held {
            core,
            log,
            desk,
            ..
        } = self;
        let trail = log.close(seats, own);
        Ok((trail, core, desk))
    }
}
