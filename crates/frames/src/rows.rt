//! The bytes of all frames: one vector, row after row.

ghost use Rattle.std.specs.Prelude.{◌≡◌, ◌+◌, ◌<◌, ◌≤◌, length, slice_set, All, IfOk, IsOkUnless};
ghost use Rattle.frames.specs.Rows.{row_at, zero_rows, laid};

use pc_types::Refusal;
use std::alloc::Global;
use std::marker::Model;

/// Rows of one size.
#[derive(Drop)]
pub(crate) struct Rows {
    size: usize,
    count: usize,
    bytes: Vec<u8>,
}

impl Model for Rows {
    ghost use Rattle.std.specs.Prelude.{◌≡◌, ◌*◌, length};
    ghost use Rattle.frames.specs.Rows.{Grid, rows_of};

    ghost Value = { Grid };

    ghost view = { λ r. record { size = r.size; rows = rows_of r.size r.count r.bytes.items } };

    ghost invariant = { λ r. length r.bytes.items ≡ r.count * r.size };
}

impl Rows {
    ghost use Rattle.std.specs.Borrow.{sem};
    ghost use Rattle.frames.specs.RowsLent.{LendsRow};

    /// Rows of zeros.
    pub(crate) fn zeros(alloc: Global, size: usize, count: usize) -> Result<Rows, Refusal>
        ensures zeros { IfOk result (λ r. r ≡ record { size = size; rows = zero_rows size count }) }
        ensures refused { IsOkUnless result Refusal.Memory }
    {
        let Some(len) = size.checked_mul(count) else {
            return Err(Refusal::Memory);
        };
        let bytes = vec![in alloc; 0; len]?;
        Ok(Rows { size, count, bytes })
    }

    /// How many rows.
    pub(crate) fn count(&self) -> usize
        ensures count { result ≡ length self.now.rows }
        ensures sized { All (λ bytes. length bytes ≡ self.now.size) self.now.rows }
    {
        self.count
    }

    /// The bytes of a row.
    pub(crate) fn get(&self, row: u32) -> &[u8]
        requires { row < length self.now.rows }
        ensures bytes { result.now ≡ row_at self.now.rows row }
        ensures size { length result.now ≡ self.now.size }
    {
        let start = row as usize * self.size;
        &self.bytes[start..start + self.size]
    }

    /// The bytes of a row, to be changed.
    pub(crate) fn get_mut(&mut self, row: u32) -> &mut [u8]
        requires { row < length self.old.rows }
        ensures* writes_back { sem 𝓛 (LendsRow self.entry row result) }
        ensures bytes { result.now ≡ row_at self.old.rows row }
        ensures size { length result.now ≡ self.old.size }
        ensures sized { All (λ bytes. length bytes ≡ self.old.size) self.old.rows }
    {
        let start = row as usize * self.size;
        let end = start + self.size;
        self.bytes.slice_mut(start..end)
    }

    /// Writes each byte of a row: these from `at` on, and zeros around them.
    pub(crate) fn lay(&mut self, row: u32, at: usize, bytes: &[u8])
        requires within { row < length self.old.rows }
        requires inside { at + length bytes.now ≤ self.old.size }
        ensures { self.new ≡ record self.old { rows = slice_set self.old.rows row (laid self.old.size at bytes.now) } }
    {
        lay(self.get_mut(row), at, bytes);
    }
}

/// Writes each byte of `out`: these from `at` on, and zeros around them.
fn lay(out: &mut [u8], at: usize, bytes: &[u8])
    requires { at + length bytes.now ≤ length out.old }
    ensures { out.new ≡ laid (length out.old) at bytes.now }
{
    let end = at + bytes.len();
    out[..at].fill(0);
    out[at..end].copy_from_slice(bytes);
    out[end..].fill(0);
}
