ghost use Rattle.std.specs.Prelude.{◌≡◌, length, true, false};
ghost use Rattle.mpm_dirent.specs.Entries.{blocks_of, map_of};
ghost use Rattle.mpm_dirent.specs.Proper.{MapFits};

use byteorder::{ByteOrder, LittleEndian};

/// The sixteen numbers of a map: its bytes, or where it is wide its eight words and eight zeros.
pub fn read_map(map: &[u8; 16], wide: bool) -> [u16; 16]
    ensures map { result ≡ blocks_of map.now wide }
    ensures fits { MapFits wide result }
{
    if wide {
        read_wide(map)
    } else {
        read_narrow(map)
    }
}

/// The sixteen bytes of a map that has room for its numbers.
pub fn write_map(blocks: &[u16; 16], wide: bool) -> [u8; 16]
    requires { MapFits wide blocks.now }
    ensures map { result ≡ map_of blocks.now wide }
    ensures size { length blocks.now ≡ 16 }
{
    if wide {
        write_wide(blocks)
    } else {
        write_narrow(blocks)
    }
}

/// Eight words, and zeros after them.
#[tactic(auto, using(crate::proofs::Numbers::words_read), unfolding(crate::specs::Entries::blocks_of))]
fn read_wide(map: &[u8; 16]) -> [u16; 16]
    ensures map { result ≡ blocks_of map.now true }
    ensures fits { MapFits true result }
{
    let mut blocks = [0; 16];
    LittleEndian::read_u16_into(map, &mut blocks[..8]);
    blocks
}

/// Sixteen bytes, each a number.
#[tactic(auto, using(std::proofs::lemmas::Grind::same_number_lists), unfolding(crate::specs::Entries::blocks_of))]
fn read_narrow(map: &[u8; 16]) -> [u16; 16]
    ensures map { result ≡ blocks_of map.now false }
    ensures fits { MapFits false result }
{
    let mut blocks = [0; 16];
    for place in 0..16 {
        blocks[place] = u16::from(map[place]);
    }
    blocks
}

/// The first eight numbers, as words.
fn write_wide(blocks: &[u16; 16]) -> [u8; 16]
    ensures { result ≡ map_of blocks.now true }
{
    let mut map = [0; 16];
    LittleEndian::write_u16_into(&blocks[..8], &mut map);
    map
}

/// Sixteen numbers that are bytes.
#[tactic(auto, using(std::proofs::lemmas::Grind::same_number_lists), unfolding(crate::specs::Entries::map_of))]
fn write_narrow(blocks: &[u16; 16]) -> [u8; 16]
    requires { MapFits false blocks.now }
    ensures { result ≡ map_of blocks.now false }
{
    let mut map = [0; 16];
    for place in 0..16 {
        map[place] = blocks[place] as u8;
    }
    map
}
