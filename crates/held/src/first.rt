//! The first file that has a page to write.

ghost use Rattle.std.specs.Prelude.{◌≡◌, IfErr, IfNone, IfOk, IfSome, Ok, length};
ghost use Rattle.blockdev.specs.Jobs.{IsJobFor};
ghost use Rattle.cachecore.specs.Replies.{IsFlushJob};
ghost use Rattle.cachecore.specs.Wants.{NothingToWrite};
ghost use Rattle.cachecore.specs.declared.answers.FlushBegun.TheVariants as flush;
ghost use Rattle.held.specs.Called.{Goes};
ghost use Rattle.held.specs.Firsts.{IsFirstDenied, Writes};

use crate::denied::Denied;
use crate::log::{Seat, Slip};
use crate::naming::Naming;
use crate::started::FlushStarted;
use crate::state::Held;
use blockdev::Buffer;
use deeds::sides::Errand;
use pc_types::{FileId, PageIndex};
use trail::Trail;

impl<B: Naming, T: Trail> Held<B, T> {
    /// Begins to write the lowest page of the first file that has one to write. Nothing is entered where no file has.
    pub fn flush_first(
        &mut self,
        seat: &mut Seat,
        buffer: Buffer,
    ) -> Result<Option<(Errand<B>, Slip)>, Denied>
        requires seat { seat.old.table ≡ B.table }
        requires size { length buffer ≡ B.sizes.page }
        ensures goes { Goes seat.old seat.new }
        ensures writes { IfOk result (λ o. IfSome o (λ r. Writes r.0 r.1 self.old self.new seat.old seat.new)) }
        ensures job { IfOk result (λ o. IfSome o (λ r. IsFlushJob self.new.core.state (Ok (flush.Job r.0)))) }
        ensures fits { IfOk result (λ o. IfSome o (λ r. IsJobFor B.name B.sizes.blocks B.sizes.page r.0)) }
        ensures nothing { IfOk result (λ o. IfNone o ((self.new ≡ self.old) × (seat.new ≡ seat.old) × NothingToWrite self.old.core.state)) }
        ensures denied { IfErr result (IsFirstDenied B.files B.sizes B.name B.whole self.old self.new seat.old seat.new) }
    {
        let Some(file) = self.core.first_to_write() else {
            return Ok(None);
        };
        let (begun, slip) = match self.flush_begin(seat, file, buffer) {
            Ok(begun) => begun,
            Err(denied) => return Err(denied),
        };
        match begun {
            FlushStarted::Job(errand) => Ok(Some((errand, slip))),
            // The file has a page to write.
            FlushStarted::Nothing(_) => unreachable!(),
        }
    }
}
