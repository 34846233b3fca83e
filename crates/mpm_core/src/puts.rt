ghost use Rattle.std.specs.Prelude.{◌++◌};
ghost use Rattle.mpm_core.specs.Files.{PutsCore};

use mpm_port::{Failed, Sink};

/// Puts two pieces, one after the other.
#[tactic(auto, using(crate::proofs::Putting::cause_then, crate::proofs::Putting::part_of_first, crate::proofs::Putting::part_after, crate::proofs::Putting::both_put))]
pub(crate) fn put_both<S: Sink>(sink: &mut S, first: &[u8], rest: &[u8]) -> Result<(), Failed>
    ensures { PutsCore S.Sink (first.now ++ rest.now) sink.old sink.new result }
{
    match sink.put(first) {
        Ok(()) => sink.put(rest),
        Err(failed) => Err(failed),
    }
}

/// Puts three pieces, one after the other.
#[tactic(auto, using(crate::proofs::Putting::cause_then, crate::proofs::Putting::part_of_first, crate::proofs::Putting::part_after, crate::proofs::Putting::both_put))]
pub(crate) fn put_three<S: Sink>(
    sink: &mut S,
    first: &[u8],
    second: &[u8],
    last: &[u8],
) -> Result<(), Failed>
    ensures { PutsCore S.Sink (first.now ++ (second.now ++ last.now)) sink.old sink.new result }
{
    match sink.put(first) {
        Ok(()) => put_both(sink, second, last),
        Err(failed) => Err(failed),
    }
}
