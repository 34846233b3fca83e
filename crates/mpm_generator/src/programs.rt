ghost use Rattle.std.specs.Prelude.{◌≡◌, ◌≤◌, ◌+◌, ◌++◌, [], length, OnOk, IfOk};
ghost use Rattle.mpm_generator.specs.Draws.{nth_behind};
ghost use Rattle.mpm_generator.specs.Programs.{blocks_behind, code_behind, program_behind, start as start_code};
ghost use Rattle.mpm_generator.specs.Putting.{PutsAll, PutsDrawn};

use crate::block::Block;
use crate::bytes::fill_to;
use crate::draws::Draws;
use std::alloc::{AllocError, Global};

/// A jump to 0140h, and after it the drive and the name in the file control block of the file that a program uses: with
/// bit 7 of the name's fifth byte it is opened in unlocked mode.
const JUMP_AND_NAME: [u8; 15] = *b"\xC3\x40\x01\x00DATA\xA0   DAT";

/// The call that opens the file, and what keeps its number.
const OPENING: [u8; 14] = [
    0x0E, 0x0F, 0x11, 0x03, 0x01, 0xCD, 0x05, 0x00, 0x2A, 0x24, 0x01, 0x22, 0x30, 0x01,
];

/// The call that ends a program.
const ENDING: [u8; 5] = [0x0E, 0x00, 0xCD, 0x05, 0x00];

/// The blocks of a program.
const BLOCKS: usize = 400;

/// A program of the next 1,200 numbers, in whole records.
pub(crate) fn program(alloc: Global, draws: &mut Draws) -> Result<Vec<u8>, AllocError>
    ensures code { IfOk result (λ code. code.items ≡ program_behind draws.old) }
    ensures size { IfOk result (λ code. length code.items ≤ 9344) }
    ensures draws { OnOk result (draws.new ≡ nth_behind 1200 draws.old) }
{
    let mut code = Vec::new(alloc);
    match put_program(&mut code, draws) {
        Ok(()) => Ok(code),
        Err(error) => Err(error),
    }
}

/// The program comes where nothing is yet.
#[tactic(auto, unfolding(crate::specs::Programs::program_behind))]
fn put_program(code: &mut Vec<u8>, draws: &mut Draws) -> Result<(), AllocError>
    requires { code.old.items ≡ [] }
    ensures { PutsDrawn (program_behind draws.old) 9344 code.new.items draws.old draws.new result }
{
    put_code(code, draws)?;
    let size = 128 * ((code.len() + 127) / 128);
    fill_to(code, size, 0)
}

/// Its code: how it starts, its blocks, and its end.
#[tactic(auto, unfolding(crate::specs::Programs::code_behind))]
fn put_code(code: &mut Vec<u8>, draws: &mut Draws) -> Result<(), AllocError>
    requires { code.old.items ≡ [] }
    ensures { PutsDrawn (code_behind draws.old) 9283 code.new.items draws.old draws.new result }
{
    put_start(code)?;
    put_blocks(code, draws)?;
    code.extend_from_slice(&ENDING)
}

/// How it starts.
fn put_start(code: &mut Vec<u8>) -> Result<(), AllocError>
    requires { code.old.items ≡ [] }
    ensures { PutsAll start_code 78 code.new.items result }
{
    code.extend_from_slice(&JUMP_AND_NAME)?;
    fill_to(code, 64, 0)?;
    code.extend_from_slice(&OPENING)
}

/// The blocks of a program come after its start.
fn put_blocks(code: &mut Vec<u8>, draws: &mut Draws) -> Result<(), AllocError>
    ensures { PutsDrawn (code.old.items ++ blocks_behind 400 draws.old) (length code.old.items + 9200) code.new.items draws.old draws.new result }
{
    for _block in 0..BLOCKS {
        Block::drawn(draws).put(code)?;
    }
    Ok(())
}
