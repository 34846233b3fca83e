ghost use Rattle.std.specs.Prelude.{◌≡◌, ◌<◌, ◌↔◌, length, IsSome, IfSome};
ghost use Rattle.mpm_banks.specs.Memory.{byte_at};
ghost use Rattle.mpm_banks.specs.Ranges.{range_of};
ghost use Rattle.mpm_gate.specs.Bytes.{bytes_from};

use mpm_banks::Banks;
use mpm_base::Seg;

/// So many bytes (at least one) from an address on, where they lie in one range of memory.
pub(crate) fn range_at(banks: &Banks, seg: Seg, address: u16, count: u16) -> Option<&[u8]>
    requires { 0 < count }
    ensures exactly { IsSome result ↔ IsSome (range_of banks.now seg address count) }
    ensures bytes { IfSome result (λ bytes. bytes.now ≡ bytes_from (byte_at banks.now seg) address count) }
    ensures size { IfSome result (λ bytes. length bytes.now ≡ count) }
{
    banks.view(seg, address, count)
}
