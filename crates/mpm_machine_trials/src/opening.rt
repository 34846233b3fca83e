//! Programs that are placed into a machine without processes.
use mpm_machine_scenes::Register::{Pc, Sp};
use mpm_machine_scenes::Sight::{Byte, Has, Lives};
use mpm_machine_scenes::{Behind, Scene};
use std::test::Fail;

/// A machine file of eight segments of 16 pages, in banks of their own.
const EIGHT_SEGMENTS: &[u8] = b"version = 1
consoles = 1
[[segment]]
base = 64
pages = 16
[[segment]]
base = 64
pages = 16
[[segment]]
base = 64
pages = 16
[[segment]]
base = 64
pages = 16
[[segment]]
base = 64
pages = 16
[[segment]]
base = 64
pages = 16
[[segment]]
base = 64
pages = 16
[[segment]]
base = 64
pages = 16
";

#[test]
fn a_second_program_is_placed(rt: HostRuntime) -> Result<(), Fail> {
    let scene = Scene {
        machine: EIGHT_SEGMENTS,
        script: b"",
        first: b"\x00",
        second: b"\x76",
        trace: false,
        disk: None,
    };
    scene.shows(
        rt.alloc(),
        &[Behind(
            0,
            b"",
            &[
                Lives(0, true),
                Byte(7, 0x4100, 0x76),
                Byte(0, 0x4100, 0x00),
                Has(1, Pc, 0x4100),
                Has(1, Sp, 0x4EFE),
            ],
        )],
    )
}
