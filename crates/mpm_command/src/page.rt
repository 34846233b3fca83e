ghost use Rattle.std.specs.Prelude.{◌≡◌, ◌≤◌, length};
ghost use Rattle.mpm_command.specs.BasePages.{base_page as page_with, block_of as block_said, block_named, tail_bytes as tail_said, upper_tail as upper};
ghost use Rattle.mpm_command.specs.FileBlocks.{file_block as block_whole};

use crate::text::{first_word, second_word};
use mpm_banks::{CALL_GATE, END_GATE};
use mpm_names::{Parsed, parse_filename};

/// The base page of a program, for a segment with that last page and a command with that tail, of at most 127 bytes. It has jumps to the
/// gates of the last page, two file control blocks of the tail's first two words, and the tail in upper case after its length.
#[tactic(auto, unfolding(crate::specs::BasePages::base_page, mpm_base::specs::Lists::zeros))]
pub fn base_page(last_page: u8, tail: &[u8]) -> [u8; 256]
    requires { length tail.now ≤ 127 }
    ensures { result ≡ page_with last_page tail.now }
{
    let mut page = [0; 256];
    page[0x80..].copy_from_slice(&tail_bytes(tail));
    page[0x6C..0x7C].copy_from_slice(&block_of(second_word(tail)));
    page[0x5C..0x6C].copy_from_slice(&block_of(first_word(tail)));
    page[..8].copy_from_slice(&[0xC3, END_GATE, last_page, 0, 0, 0xC3, CALL_GATE, last_page]);
    page
}

/// The first 16 bytes of the file control block of a word, at most 128 bytes; one without a name where it is no file name.
fn block_of(word: &[u8]) -> [u8; 16]
    requires { length word.now ≤ 128 }
    ensures { result ≡ block_said word.now }
{
    match parse_filename(word) {
        Ok(parsed) => named_block(&parsed),
        Err(_) => [0, 32, 32, 32, 32, 32, 32, 32, 32, 32, 32, 32, 0, 0, 0, 0],
    }
}

/// The first 16 bytes of the file control block of a name: the drive, the name with its type, and four zeros.
fn named_block(parsed: &Parsed) -> [u8; 16]
    ensures { result ≡ block_named parsed.now }
{
    let mut block = [0; 16];
    block[1..12].copy_from_slice(&parsed.name);
    block[0] = parsed.drive;
    block
}

/// The file control block of a name: the drive, the name with its type, the password at 16 and its length at 26; its other
/// bytes are zeros.
#[tactic(auto, unfolding(mpm_base::specs::Lists::zeros))]
pub fn file_block(parsed: &Parsed) -> [u8; 36]
    ensures { result ≡ block_whole parsed.now }
{
    let mut block = [0; 36];
    block[26] = parsed.password_length;
    block[16..24].copy_from_slice(&parsed.password);
    block[..16].copy_from_slice(&named_block(parsed));
    block
}

/// A tail in upper case after its length, and zeros after it.
fn tail_bytes(tail: &[u8]) -> [u8; 128]
    requires { length tail.now ≤ 127 }
    ensures { result ≡ tail_said tail.now }
{
    let mut bytes = [0; 128];
    bytes[1..].copy_from_slice(&upper_case(tail));
    bytes[0] = tail.len() as u8;
    bytes
}

/// A tail in upper case, and zeros after it.
#[tactic(auto, unfolding(mpm_base::specs::Lists::zeros))]
fn upper_case(tail: &[u8]) -> [u8; 127]
    requires { length tail.now ≤ 127 }
    ensures { result ≡ upper tail.now }
{
    let mut bytes = [0; 127];
    bytes[..tail.len()].copy_from_slice(tail);
    bytes.make_ascii_uppercase();
    bytes
}
