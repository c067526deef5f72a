//! The line of a row.

ghost use Rattle.std.specs.Prelude.{◌≡◌, ◌*◌, ◌/◌, ◌^◌, ◌<◌};

use crate::best::Best;
use crate::fault::Fault;
use std::io::Write;

/// Writes `12.34 ns  LABEL`, where the best round took the time of so many.
pub fn write_row<W: Write>(
    out: &mut W,
    best: Best,
    count: u64,
    label: &str,
    ending: &str,
) -> Result<(), Fault>
    requires { 0 < count }
{
    let hundredths = hundredths_each(best.nanos, count);
    let (whole, part) = (hundredths / 100, hundredths % 100);
    writeln!(out, "{whole}.{part:02} ns  {label}{ending}")?;
    Ok(())
}

/// The hundredths of a nanosecond that each of so many took, rounded down.
pub fn hundredths_each(nanos: u64, count: u64) -> u64
    requires { 0 < count }
    ensures { nanos < 2 ^ 57 → result ≡ nanos * 100 / count }
{
    nanos.saturating_mul(100) / count
}
