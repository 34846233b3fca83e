//! Machine files whose every part is looked at. Which texts are machine files is shown by the cases of the built program.
use mpm_base::{Kind, SegmentSpec};
use mpm_machine_file::{MachineFile, read_machine};
use std::test::Fail;

/// A machine file of those keys alone that must stand.
const LEAST: &str = "version = 1\nconsoles = 1\n[[segment]]\nbase = 0\npages = 192\n";

/// A machine file of all keys, in another order, with the greatest values.
const MOST: &str = "
second = 59
minute = 58
hour = 23
date = 65535
disk_turn = 1000
tick_every = 1000000
printers = 4
consoles = 8
version = 2
script = 'keys.txt'
residents = ['sched', 'spool']
segment = [{ base = 64, pages = 8 }, { pages = 4, base = 188 }]
drive = [
    { letter = 'P', kind = 'hd8', image = 'p.img' },
    { letter = 'A', kind = 'ibm3740', image = 'a.img' },
    { letter = 'C', kind = 'hd4', image = 'c.img' },
]
";

/// Whether a machine has these numbers: consoles, printers, steps between ticks, steps of a turn, date, hour, minute, second.
fn has_numbers(file: &MachineFile, numbers: [u32; 8]) -> bool {
    let units = [u32::from(file.consoles), u32::from(file.printers)];
    let steps = [file.tick_every, u32::from(file.disk_turn)];
    let date = [u32::from(file.date), u32::from(file.hour)];
    let time = [u32::from(file.minute), u32::from(file.second)];
    [units, steps, date, time].as_flattened() == numbers.as_slice()
}

/// Whether a machine has just these drives, each with its letter, its kind and its image.
fn has_drives(file: &MachineFile, drives: &[(u8, Kind, &str)]) -> bool {
    let found = file.drives.as_slice();
    found.len() == drives.len()
        && found.iter().zip(drives.iter()).all(|(drive, row)| {
            drive.letter == row.0 && drive.kind == row.1 && drive.image.as_str() == row.2
        })
}

/// Whether a machine has just these segments, each with its first page and its pages.
fn has_segments(file: &MachineFile, segments: &[(u8, u8)]) -> bool {
    let found = file.segments.as_slice();
    found.len() == segments.len()
        && found.iter().zip(segments.iter()).all(|(segment, row)| {
            *segment
                == SegmentSpec {
                    base: row.0,
                    pages: row.1,
                }
        })
}

/// Whether a machine has what a machine file has where its keys are missing.
fn has_least(file: &MachineFile) -> bool {
    has_numbers(file, [1, 1, 0, 0, 1, 0, 0, 0])
        && has_segments(file, &[(0, 192)])
        && has_drives(file, &[])
        && file.script.is_none()
        && !file.spool
        && !file.sched
}

/// Whether a machine has all that a machine file of all keys says.
fn has_most(file: &MachineFile) -> bool {
    let drives = [
        (b'A', Kind::Ibm3740, "a.img"),
        (b'C', Kind::Hd4, "c.img"),
        (b'P', Kind::Hd8, "p.img"),
    ];
    let Some(script) = &file.script else {
        return false;
    };
    has_numbers(file, [8, 4, 1_000_000, 1000, 65_535, 23, 58, 59])
        && has_segments(file, &[(64, 8), (188, 4)])
        && has_drives(file, &drives)
        && script.as_str() == "keys.txt"
        && file.spool
        && file.sched
}

/// Whether a machine has sixteen drives, by their letters.
fn has_sixteen(file: &MachineFile) -> bool {
    let found = file.drives.as_slice();
    found.len() == 16
        && found
            .iter()
            .zip(b"ABCDEFGHIJKLMNOP".iter())
            .all(|(drive, letter)| drive.letter == *letter)
}

#[test]
fn missing_keys_have_their_values(rt: HostRuntime) -> Result<(), Fail> {
    let file = read_machine(rt.alloc(), LEAST.as_bytes())?;
    let kept = has_least(&file);
    assert!(rt; kept);
    Ok(())
}

#[test]
fn each_key_is_kept(rt: HostRuntime) -> Result<(), Fail> {
    let file = read_machine(rt.alloc(), MOST.as_bytes())?;
    let kept = has_most(&file);
    assert!(rt; kept);
    Ok(())
}

#[test]
fn sixteen_drives_are_the_most(rt: HostRuntime) -> Result<(), Fail> {
    let mut text = String::from_str(rt.alloc(), LEAST)?;
    for letter in "PONMLKJIHGFEDCBA".chars() {
        text.push_str("[[drive]]\nkind = 'hd4'\n")?;
        write!(text, "letter = '{letter}'\nimage = '{letter}.img'\n")?;
    }
    let file = read_machine(rt.alloc(), text.as_bytes())?;
    let kept = has_sixteen(&file);
    assert!(rt; kept);
    Ok(())
}
