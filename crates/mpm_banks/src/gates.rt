ghost use Rattle.std.specs.Prelude.{◌≡◌, ◌+◌, ◌-◌};
ghost use Rattle.mpm_banks.specs.Allocations.{FitsBelowCommon};

use mpm_base::SegmentSpec;

/// The place in a segment's last page of the gate that ends the process.
pub const END_GATE: u8 = 0x03;

/// The place of the gate that calls the kernel.
pub const CALL_GATE: u8 = 0x06;

/// The place of the gate that ends a resident procedure.
pub const RETURN_GATE: u8 = 0x09;

/// The last page of a segment that lies there, in which its gates are.
pub fn last_page(spec: SegmentSpec) -> u8
    requires { FitsBelowCommon spec }
    ensures { result ≡ spec.base + spec.pages - 1 }
{
    spec.base + spec.pages - 1
}
