ghost use Rattle.std.specs.Prelude.{◌≡◌, ◌<◌, slice_index};
ghost use Rattle.mpm_blocks.specs.Geometries.{geometry_of, parameters_of, parameter_bytes, image_sectors, logical_sectors, skew, place_of};

use crate::parameters::Geometry;
use mpm_base::Kind;

/// The geometry of a kind of disk.
#[tactic(auto)]
pub fn geometry(kind: Kind) -> Geometry
    ensures { result ≡ geometry_of kind }
{
    match kind {
        Kind::Ibm3740 => Geometry {
            bytes: 256_256,
            block: 1_024,
            dsm: 242,
            drm: 63,
            directory_blocks: 2,
            wide: false,
            mask: 0,
        },
        Kind::Hd4 => Geometry {
            bytes: 4_194_304,
            block: 2_048,
            dsm: 2_047,
            drm: 511,
            directory_blocks: 8,
            wide: true,
            mask: 0,
        },
        Kind::Hd8 => Geometry {
            bytes: 8_388_608,
            block: 4_096,
            dsm: 2_047,
            drm: 511,
            directory_blocks: 4,
            wide: true,
            mask: 1,
        },
    }
}

/// The disk parameter block of a kind of disk: its fifteen bytes as a program reads them.
pub fn parameter_block(kind: Kind) -> [u8; 15]
    ensures { result ≡ parameter_bytes (parameters_of kind) }
{
    match kind {
        Kind::Ibm3740 => [26, 0, 3, 7, 0, 242, 0, 63, 0, 0xC0, 0, 16, 0, 2, 0],
        Kind::Hd4 => [128, 0, 4, 15, 0, 0xFF, 7, 0xFF, 1, 0xFF, 0, 0, 0, 0, 0],
        Kind::Hd8 => [128, 0, 5, 31, 1, 0xFF, 7, 0xFF, 1, 0xF0, 0, 0, 0, 0, 0],
    }
}

/// The sector of the image, of 128 bytes, that a logical sector is: counted from 0 after the system's tracks, of those
/// that the image has.
#[tactic(auto, using(crate::proofs::Skew::skew_low, crate::proofs::Skew::skew_high))]
pub fn place(kind: Kind, logical: u32) -> u32
    requires { logical < logical_sectors kind }
    ensures place { result ≡ place_of kind logical }
    ensures within { result < image_sectors kind }
{
    match kind {
        Kind::Ibm3740 => 52 + logical / 26 * 26 + (physical((logical % 26) as u8) - 1),
        Kind::Hd4 | Kind::Hd8 => logical,
    }
}

/// The sectors of a track in the order in which they are used.
const SKEW: [u8; 26] = [
    1, 7, 13, 19, 25, 5, 11, 17, 23, 3, 9, 15, 21, 2, 8, 14, 20, 26, 6, 12, 18, 24, 4, 10, 16, 22,
];

/// The sector of a track, 1 to 26, that stands at an index.
#[tactic(auto, unfolding(crate::specs::Geometries::skew))]
fn physical(index: u8) -> u32
    requires { index < 26 }
    ensures { result ≡ slice_index skew index }
{
    u32::from(SKEW[usize::from(index)])
}
