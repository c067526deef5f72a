//! Why a device call failed.

ghost use Rattle.std.specs.Prelude.{◌≡◌, ◌≤◌, ◌↔◌, IfOk, IsOk, IsOkUnless, IsTrue};
ghost use Rattle.pc_types.specs.Limits.{is_err_code};

use crate::limits::MAX_ERR_CODE;
use crate::refusal::Refusal;
use std::fmt;
use std::marker::Model;

/// An error code of a device, as an `errno` of Linux: 1 to 4,095.
#[derive(Clone, Copy, PartialEq, Eq, Debug)]
pub struct ErrCode {
    code: u16,
}

impl Model for ErrCode {
    ghost use Rattle.std.specs.Prelude.{ℕ, IsTrue};
    ghost use Rattle.pc_types.specs.Limits.{is_err_code};

    ghost Value = { ℕ };

    ghost view = { λ e. e.code };

    ghost invariant = { λ e. IsTrue (is_err_code e.code) };

    ghost inverse = { λ n. record { code = n } };
}

impl ErrCode {
    /// The error of a device that tells no other: an input or output error.
    pub const IO: ErrCode = ErrCode { code: 5 };

    /// The code, where it is one.
    pub fn new(code: u16) -> Result<ErrCode, Refusal>
        ensures value { IfOk result (λ e. e ≡ code) }
        ensures within { IsOk result ↔ IsTrue (is_err_code code) }
        ensures refused { IsOkUnless result Refusal.BadCode }
    {
        if 1 <= code && code <= MAX_ERR_CODE {
            Ok(ErrCode { code })
        } else {
            Err(Refusal::BadCode)
        }
    }

    /// The code as a number.
    pub fn code(&self) -> u16
        ensures value { result ≡ self.now }
        ensures least { 1 ≤ result }
        ensures most { result ≤ MAX_ERR_CODE }
    {
        self.code
    }
}

impl fmt::Display for ErrCode {
    ghost use Rattle.std.specs.Prelude.{Some};
    ghost use Rattle.std.specs.Fmt.{decimal};

    ghost output = { λ e. Some (decimal e) };

    fn fmt<W: fmt::Write>(&self, f: &mut fmt::Formatter<W>) -> fmt::Result {
        write!(f, "{}", self.code)
    }
}
