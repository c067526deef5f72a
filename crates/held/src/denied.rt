//! How a call is refused.

ghost use Rattle.std.specs.Bool.{OnFalse, OnTrue};
ghost use Rattle.std.specs.Prelude.{◌≡◌, Err, IfErr, IfOk, None, Ok, Some, false, true};

use crate::log::Slip;
use pc_types::Refusal;

/// Why a call was not made, and the slip of the entry that refused it. Without a slip no entry tells of the refusal: memory or the trail is
/// full, say, or the seat is of another cache. Events that the call had made by then stand.
#[derive(Clone, Copy, Debug)]
pub struct Denied {
    pub refusal: Refusal,
    pub slip: Option<Slip>,
}

/// A refusal that no entry tells of.
pub fn without_slip(refusal: Refusal) -> Denied
    ensures { result ≡ record { refusal = refusal; slip = None } }
{
    Denied {
        refusal,
        slip: None,
    }
}

/// A refusal that the slip's entry tells of.
pub fn by(refusal: Refusal, slip: Slip) -> Denied
    ensures { result ≡ record { refusal = refusal; slip = Some slip } }
{
    Denied {
        refusal,
        slip: Some(slip),
    }
}

/// Whether the entry of a drop has no room: one that is refused wants an entry of its own (decision 122).
pub(crate) fn lacks_entry(is_refused: bool, is_room: bool) -> bool
    ensures yes { OnTrue result ((is_refused ≡ true) × (is_room ≡ false)) }
    ensures no { OnFalse result (is_refused ≡ true → is_room ≡ true) }
{
    is_refused && !is_room
}

/// The answer of an event that was entered at the slip, or its refusal, of which this entry tells.
pub(crate) fn told<A>(answer: Result<A, Refusal>, slip: Slip) -> Result<(A, Slip), Denied>
    ensures ok { IfOk result (λ r. (answer ≡ Ok r.0) × (r.1 ≡ slip)) }
    ensures err { IfErr result (λ d. (answer ≡ Err d.refusal) × (d.slip ≡ Some slip)) }
{
    match answer {
        Ok(answer) => Ok((answer, slip)),
        Err(refusal) => Err(by(refusal, slip)),
    }
}
