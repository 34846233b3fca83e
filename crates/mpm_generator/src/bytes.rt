ghost use Rattle.std.specs.Prelude.{◌≡◌, ◌≤◌, ◌+◌, ◌++◌, length, replicate, OnOk};
ghost use Rattle.mpm_generator.specs.Putting.{PutsAll};
ghost use Rattle.mpm_generator.specs.Sizes.{filled_to as filled};

use std::alloc::AllocError;

/// So many bytes of a value come after some, at most 4,194,304 in all.
#[tactic(auto, using(crate::proofs::Sizes::all_taken))]
pub(crate) fn append(bytes: &mut Vec<u8>, count: usize, value: u8) -> Result<(), AllocError>
    requires { length bytes.old.items + count ≤ 4194304 }
    ensures { OnOk result (bytes.new.items ≡ bytes.old.items ++ replicate count value) }
{
    bytes.resize(bytes.len() + count, value)
}

/// Bytes of a value come after some, up to a size of at most 4,194,304.
#[tactic(auto, unfolding(crate::specs::Sizes::filled_to), using(crate::proofs::Sizes::size_filled))]
pub(crate) fn fill_to(bytes: &mut Vec<u8>, size: usize, value: u8) -> Result<(), AllocError>
    requires room { length bytes.old.items ≤ size }
    requires few { size ≤ 4194304 }
    ensures { PutsAll (filled size value bytes.old.items) size bytes.new.items result }
{
    append(bytes, size - bytes.len(), value)
}
