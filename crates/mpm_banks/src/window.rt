ghost use Rattle.std.specs.Prelude.{◌≡◌, length};
ghost use Rattle.std.specs.Borrow.{sem};

use crate::banks::Banks;
use crate::range::Range;

/// A range of memory that is lent: some bytes of a segment, or of common memory.
#[derive(Drop)]
pub struct Window<'a> {
    pub(crate) banks: &'a mut Banks,
    pub(crate) range: Range,
}

impl<'a> Window<'a> {
    ghost use Rattle.mpm_banks.specs.Ranges.{IsInsideMemory, range_bytes, range_size};
    ghost use Rattle.mpm_banks.specs.Windows.{LendsBytes};

    /// The bytes themselves.
    pub fn into_bytes(self) -> &'a mut [u8]
        requires { IsInsideMemory self.banks.now self.range }
        ensures* lends { sem 𝓛 (LendsBytes self.entry result) }
        ensures value { result.now ≡ range_bytes self.entry.banks.now self.entry.range }
        ensures size { length result.now ≡ range_size self.entry.range }
    {
        let Window { banks, range } = self;
        banks.range_mut(range)
    }
}
