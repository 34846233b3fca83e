ghost use Rattle.std.specs.Prelude.{◌≡◌, ◌<◌, ◌+◌, ◌++◌, length};
ghost use Rattle.mpm_generator.specs.Draws.{nth_behind};
ghost use Rattle.mpm_generator.specs.Programs.{block_of as block_said, block_behind, code_of, lock_code};
ghost use Rattle.mpm_generator.specs.Putting.{PutsBytes};

use crate::draws::Draws;
use std::alloc::AllocError;

/// A part of a program: what it does with a record of the file, or at its console.
#[derive(Clone, Copy)]
pub(crate) enum Block {
    /// A record is written that begins with a letter.
    Write { number: u8, letter: u8 },
    /// The first byte of a record is shown.
    Show { number: u8 },
    /// A record is locked.
    Lock { number: u8 },
    /// A record is unlocked.
    Unlock { number: u8 },
    /// So many ticks go by.
    Delay { ticks: u8 },
    /// A line ends.
    NewLine,
}

impl Block {
    /// The block of three drawn numbers.
    fn of(kind: u8, number: u8, value: u8) -> Block
        requires { value < 26 }
        ensures { result ≡ block_said kind number value }
    {
        match kind {
            0 => Block::Write {
                number,
                letter: b'A' + value,
            },
            1 => Block::Show { number },
            2 => Block::Lock { number },
            3 => Block::Unlock { number },
            4 => Block::Delay {
                ticks: value % 3 + 1,
            },
            _ => Block::NewLine,
        }
    }

    /// The block of the next three numbers.
    #[tactic(auto, unfolding(crate::specs::Draws::nth_behind))]
    pub(crate) fn drawn(draws: &mut Draws) -> Block
        ensures block { result ≡ block_behind draws.old }
        ensures draws { draws.new ≡ nth_behind 3 draws.old }
    {
        let kind = draws.below(6);
        let number = draws.below(32);
        let value = draws.below(26);
        Block::of(kind, number, value)
    }

    /// Its code comes after other code.
    pub(crate) fn put(self, code: &mut Vec<u8>) -> Result<(), AllocError>
        ensures { PutsBytes (code.old.items ++ code_of self) (length code.old.items + 23) code.new.items result }
    {
        match self {
            Block::Write { number, letter } => code.extend_from_slice(&[
                0x3E, letter, 0x32, 0x80, 0x00, 0x21, number, 0x00, 0x22, 0x24, 0x01, 0x0E, 34,
                0x11, 0x03, 0x01, 0xCD, 0x05, 0x00,
            ]),
            Block::Show { number } => code.extend_from_slice(&[
                0x21, number, 0x00, 0x22, 0x24, 0x01, 0x0E, 33, 0x11, 0x03, 0x01, 0xCD, 0x05, 0x00,
                0x3A, 0x80, 0x00, 0x5F, 0x0E, 0x02, 0xCD, 0x05, 0x00,
            ]),
            Block::Lock { number } => put_lock(code, 42, number),
            Block::Unlock { number } => put_lock(code, 43, number),
            Block::Delay { ticks } => code.extend_from_slice(&[
                0x11, ticks, 0x00, 0x0E, 0x8D, 0xCD, 0x05, 0x00,
            ]),
            Block::NewLine => code.extend_from_slice(&[
                0x1E, 0x0D, 0x0E, 0x02, 0xCD, 0x05, 0x00, 0x1E, 0x0A, 0x0E, 0x02, 0xCD, 0x05, 0x00,
            ]),
        }
    }
}

/// The code that locks or unlocks a record comes after other code.
fn put_lock(code: &mut Vec<u8>, function: u8, number: u8) -> Result<(), AllocError>
    ensures { PutsBytes (code.old.items ++ lock_code function number) (length code.old.items + 23) code.new.items result }
{
    code.extend_from_slice(&[
        0x2A, 0x30, 0x01, 0x22, 0x80, 0x00, 0x21, number, 0x00, 0x22, 0x24, 0x01, 0x0E, function,
        0x11, 0x03, 0x01, 0xCD, 0x05, 0x00,
    ])
}
