ghost use Rattle.std.specs.Prelude.{◌≡◌, ◌≤◌, ◌+◌, ◌++◌, [], length, OnOk, IfOk};
ghost use Rattle.mpm_generator.specs.Programs.{program_behind};
ghost use Rattle.mpm_generator.specs.Putting.{PutsBytes, PutsAll, AreSmall};
ghost use Rattle.mpm_generator.specs.Sizes.{blocks_for, in_blocks};
ghost use Rattle.mpm_generator.specs.Images.{numbers_from as numbers_said, entry_for, directory_of, files_of, image_of, image_with};

use crate::bytes::{append, fill_to};
use crate::draws::Draws;
use crate::programs::program;
use mpm_dirent::{Entry, FileEntry, write_entry};
use std::alloc::{AllocError, Global};

/// The bytes of an image, of its directory, and of the file of records.
const IMAGE: usize = 4194304;

const DIRECTORY: usize = 16384;

const DATA: usize = 4096;

/// The image of the drive of a seed.
///
/// # Errors
/// Where no memory is found.
pub fn image(alloc: Global, seed: u32) -> Result<Vec<u8>, AllocError>
    ensures { IfOk result (λ image. image.items ≡ image_of seed) }
{
    let mut draws = Draws::behind(seed);
    match program(alloc, &mut draws) {
        Ok(first) => with_first(alloc, first.as_slice(), &mut draws),
        Err(error) => Err(error),
    }
}

/// The image with a first program, and a second one of the next numbers.
fn with_first(alloc: Global, first: &[u8], draws: &mut Draws) -> Result<Vec<u8>, AllocError>
    requires { length first.now ≤ 9344 }
    ensures { IfOk result (λ image. image.items ≡ image_with first.now (program_behind draws.old)) }
{
    match program(alloc, draws) {
        Ok(second) => with_both(alloc, first, second.as_slice()),
        Err(error) => Err(error),
    }
}

/// The image with two programs.
fn with_both(alloc: Global, first: &[u8], second: &[u8]) -> Result<Vec<u8>, AllocError>
    requires { AreSmall (length first.now) (length second.now) }
    ensures { IfOk result (λ image. image.items ≡ image_with first.now second.now) }
{
    let mut image = Vec::new(alloc);
    match put_image(&mut image, first, second) {
        Ok(()) => Ok(image),
        Err(error) => Err(error),
    }
}

/// That image comes where nothing is yet.
#[tactic(auto, unfolding(crate::specs::Images::image_with))]
fn put_image(image: &mut Vec<u8>, first: &[u8], second: &[u8]) -> Result<(), AllocError>
    requires empty { image.old.items ≡ [] }
    requires programs { AreSmall (length first.now) (length second.now) }
    ensures { OnOk result (image.new.items ≡ image_with first.now second.now) }
{
    put_directory(image, first.len(), second.len())?;
    put_files(image, first, second)?;
    fill_to(image, IMAGE, 0)
}

/// Two programs and the file of records come after the directory.
fn put_files(image: &mut Vec<u8>, first: &[u8], second: &[u8]) -> Result<(), AllocError>
    requires directory { length image.old.items ≡ 16384 }
    requires programs { AreSmall (length first.now) (length second.now) }
    ensures { PutsBytes (image.old.items ++ files_of first.now second.now) 40960 image.new.items result }
{
    put_file(image, first)?;
    put_file(image, second)?;
    append(image, DATA, b'.')
}

/// The directory of two programs of so many bytes comes where nothing is yet.
#[tactic(auto, unfolding(crate::specs::Images::directory_of))]
fn put_directory(image: &mut Vec<u8>, first: usize, second: usize) -> Result<(), AllocError>
    requires empty { image.old.items ≡ [] }
    requires programs { AreSmall first second }
    ensures { PutsAll (directory_of first second) 16384 image.new.items result }
{
    let second_block = 8 + blocks(first);
    image.extend_from_slice(&entry(b"G0      COM", 8, first))?;
    image.extend_from_slice(&entry(b"G1      COM", second_block, second))?;
    image.extend_from_slice(&entry(b"DATA    DAT", second_block + blocks(second), DATA))?;
    fill_to(image, DIRECTORY, 0xE5)
}

/// How many blocks so many bytes take.
fn blocks(count: usize) -> u16
    requires { count ≤ 9344 }
    ensures blocks { result ≡ blocks_for count }
    ensures few { result ≤ 5 }
{
    ((count + 2047) / 2048) as u16
}

/// The directory entry of a file of user 0 with so many bytes, in the blocks from one on.
#[tactic(auto, unfolding(crate::specs::Images::entry_for))]
fn entry(name: &[u8; 11], first: u16, count: usize) -> [u8; 32]
    requires count { count ≤ 9344 }
    requires first { first ≤ 18 }
    ensures entry { result ≡ entry_for name.now first count }
    ensures size { length result ≡ 32 }
{
    let file = FileEntry {
        user: 0,
        name: *name,
        ex: 0,
        s1: 0,
        s2: 0,
        rc: ((count + 127) / 128) as u8,
        blocks: numbers_from(first, blocks(count)),
    };
    write_entry(&Entry::File { file }, true)
}

/// The numbers of a file's blocks, from one on.
fn numbers_from(first: u16, count: u16) -> [u16; 16]
    requires count { count ≤ 5 }
    requires first { first ≤ 18 }
    ensures { result ≡ numbers_said first count }
{
    let mut numbers = [0; 16];
    for place in 0..count {
        numbers[usize::from(place)] = first + place;
    }
    numbers
}

/// A file comes after what is there, in whole blocks.
fn put_file(image: &mut Vec<u8>, file: &[u8]) -> Result<(), AllocError>
    requires room { length image.old.items ≤ 26624 }
    requires few { length file.now ≤ 9344 }
    ensures image { OnOk result (image.new.items ≡ image.old.items ++ in_blocks file.now) }
    ensures size { OnOk result (length image.new.items ≤ length image.old.items + 10240) }
{
    image.extend_from_slice(file)?;
    let size = 2048 * usize::from(blocks(file.len()));
    append(image, size - file.len(), 0)
}
