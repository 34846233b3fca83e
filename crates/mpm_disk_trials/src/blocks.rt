//! The sizes of disks, where their sectors are, and which blocks are used.
ghost use Rattle.std.specs.Prelude.{◌≡◌};
ghost use Rattle.mpm_base.specs.declared.kind.Kind.TheVariants.{Ibm3740, Hd4};

use mpm_base::Kind;
use mpm_blocks::{BlockMap, Geometry, geometry, parameter_block, place};
use std::test::Fail;

/// Whether a geometry has a size in bytes; a size of blocks, DSM, DRM and the directory's blocks; wide maps or not, and its mask.
fn is(sizes: &Geometry, bytes: u32, numbers: (u16, u16, u16, u16), wide: bool, mask: u8) -> bool {
    sizes.bytes == bytes
        && (sizes.block, sizes.dsm, sizes.drm, sizes.directory_blocks) == numbers
        && sizes.wide == wide
        && sizes.mask == mask
}

/// Whether disks have their sizes.
fn have_sizes() -> bool {
    let floppy = geometry(Kind::Ibm3740);
    let four = geometry(Kind::Hd4);
    let eight = geometry(Kind::Hd8);
    is(&floppy, 77 * 26 * 128, (1_024, 242, 63, 2), false, 0)
        && is(&four, 4_194_304, (2_048, 2_047, 511, 8), true, 0)
        && is(&eight, 8_388_608, (4_096, 2_047, 511, 4), true, 1)
}

/// Whether disks have their parameter blocks.
fn have_parameters() -> bool {
    parameter_block(Kind::Ibm3740) == [26, 0, 3, 7, 0, 242, 0, 63, 0, 192, 0, 16, 0, 2, 0]
        && parameter_block(Kind::Hd4) == [128, 0, 4, 15, 0, 255, 7, 255, 1, 255, 0, 0, 0, 0, 0]
        && parameter_block(Kind::Hd8) == [128, 0, 5, 31, 1, 255, 7, 255, 1, 240, 0, 0, 0, 0, 0]
}

#[test]
fn disks_have_sizes_and_parameters(rt: HostRuntime) -> Result<(), Fail> {
    let sizes = have_sizes();
    let parameters = have_parameters();
    assert!(rt; sizes && parameters);
    Ok(())
}

/// Whether sectors of a floppy are six apart.
fn are_six_apart() -> bool {
    place(Kind::Ibm3740, 0) == 6_656 / 128
        && place(Kind::Ibm3740, 1) == 7_424 / 128
        && place(Kind::Ibm3740, 16) == 9_088 / 128
        && place(Kind::Ibm3740, 25) == 52 + 21
        && place(Kind::Ibm3740, 26) == 78
        && place(Kind::Ibm3740, 1_000) == 1_040 + 20
        && place(Kind::Ibm3740, 1_949) == 1_976 + 21
}

/// Whether sectors of a hard disk are in order.
fn are_in_order() -> bool {
    place(Kind::Hd4, 0) == 0
        && place(Kind::Hd4, 16_384) == 16_384
        && place(Kind::Hd4, 32_767) == 32_767
        && place(Kind::Hd8, 65_535) == 65_535
}

#[test]
fn sectors_have_their_places(rt: HostRuntime) -> Result<(), Fail> {
    let apart = are_six_apart();
    let order = are_in_order();
    assert!(rt; apart && order);
    Ok(())
}

/// Whether all blocks of a floppy are claimed, each of which is the lowest free one, and each once.
fn fills_up(map: &mut BlockMap) -> bool
    requires { map.old.kind ≡ Ibm3740 }
    ensures { map.new.kind ≡ Ibm3740 }
{
    for block in 2..243 {
        if map.least() != Some(block) || !map.claim(block) || map.claim(block) {
            return false;
        }
    }
    map.least().is_none() && map.left() == 0
}

/// Whether blocks that are freed are free.
fn frees(map: &mut BlockMap) -> bool
    requires { map.old.kind ≡ Ibm3740 }
{
    map.free(242);
    let last = map.least() == Some(242);
    map.free(17);
    map.free(17);
    last && map.least() == Some(17) && map.left() == 2
}

#[test]
fn a_map_is_filled_up_and_freed(rt: HostRuntime) -> Result<(), Fail> {
    let mut map = BlockMap::new(rt.alloc(), Kind::Ibm3740)?;
    let empty = map.left() == 241;
    let filled = fills_up(&mut map);
    let freed = frees(&mut map);
    assert!(rt; empty && filled && freed);
    Ok(())
}

/// Whether the blocks of a directory are used, and no other.
fn has_a_directory(map: &mut BlockMap) -> bool
    requires { map.old.kind ≡ Hd4 }
{
    map.least() == Some(8)
        && map.left() == 2_040
        && !map.claim(0)
        && !map.claim(7)
        && map.claim(2_047)
        && map.claim(8)
        && map.least() == Some(9)
        && map.left() == 2_038
}

#[test]
fn a_directory_is_used(rt: HostRuntime) -> Result<(), Fail> {
    let mut map = BlockMap::new(rt.alloc(), Kind::Hd4)?;
    let used = has_a_directory(&mut map);
    assert!(rt; used);
    Ok(())
}
