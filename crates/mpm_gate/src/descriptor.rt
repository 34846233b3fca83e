ghost use Rattle.std.specs.Prelude.{◌≡◌};
ghost use Rattle.mpm_banks.specs.Memory.{HasSegment};
ghost use Rattle.mpm_gate.specs.Descriptors.{segment_descriptor as descriptor_of_segment};

use mpm_banks::Banks;
use mpm_base::Seg;

/// The attributes of a memory segment in its descriptor: it is allocated.
const ALLOCATED: u8 = 0x80;

/// The descriptor of a segment, as replies have it: its base page, its pages, its attributes and its bank. (MP/M II Programmer's
/// Guide, "Function 128: Absolute Memory Request".)
pub fn segment_descriptor(banks: &Banks, seg: Seg) -> [u8; 4]
    requires { HasSegment banks.now seg }
    ensures { result ≡ descriptor_of_segment banks.now seg }
{
    let spec = banks.spec(seg);
    [spec.base, spec.pages, ALLOCATED, seg.0]
}
