ghost use Rattle.std.specs.Prelude.{◌≡◌, ◌<◌, None, MatchOption, IfOk};
ghost use Rattle.mpm_top.specs.Words.{texts};
ghost use Rattle.mpm_top.specs.Seeds.{seeded_of, AskSeeded};
ghost use Rattle.mpm_top.specs.RunParts.{SaysSeed, SaysSeeded, AreMadeOf};

use crate::words::steps_of;
use mpm_generator::{Generated, generate};
use mpm_port::OutOfMemory;
use std::alloc::Global;

/// The greatest seed.
const GREATEST_SEED: u32 = 2_147_483_647;

/// What `gen` asks: the machine of a seed, and how many steps are to be done.
#[derive(Clone, Copy)]
pub(crate) struct Seeded {
    /// Below 2^31.
    pub seed: u32,
    /// At most 4,000,000,000.
    pub steps: u64,
}

/// What is reported of a run.
#[derive(Clone, Copy)]
pub(crate) struct Found {
    /// The lines of consoles.
    pub lines: u64,
    /// The lines of completed calls.
    pub calls: u64,
    /// The sum over the records of DATA.DAT, counted from 1, of that number times the record's first byte.
    pub data: u64,
}

/// The machine that a seed makes, the script that is handed to it, and its drives.
///
/// # Errors
/// Where no memory is found.
pub fn generated(alloc: Global, seed: u32) -> Result<Generated, OutOfMemory>
    requires { seed < 2147483648 }
    ensures { IfOk result (λ made. AreMadeOf seed made.machine made.script made.drives) }
{
    generate(alloc, seed)
}

/// The seed that a word says.
fn seed_of(word: &str) -> Option<u32>
    ensures { SaysSeed word.now result }
{
    mpm_script::number(word.as_bytes(), GREATEST_SEED)
}

/// What the second and the third word ask of `gen`.
fn seeded_by(seed: &str, steps: &str) -> Option<Seeded>
    ensures { SaysSeeded seed.now steps.now result }
{
    let seed = seed_of(seed)?;
    let steps = steps_of(steps)?;
    Some(Seeded { seed, steps })
}

/// What words ask of `gen`; None where they have no such form.
#[tactic(auto, unfolding(crate::specs::Seeds::seeded_of))]
pub(crate) fn read_seeded(words: &[String]) -> Option<Seeded>
    ensures { MatchOption result (seeded_of (texts words.now) ≡ None) (λ asked. AskSeeded (texts words.now) asked) }
{
    match words {
        [word, seed, steps] => {
            if word.as_str() == "gen" {
                seeded_by(seed.as_str(), steps.as_str())
            } else {
                None
            }
        }
        _ => None,
    }
}
