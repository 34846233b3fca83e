//! What a seed makes: an image, and a machine with what is typed at its consoles.
use mpm_generator::{Generated, generate, image};
use mpm_machine_file::MachineFile;
use mpm_port::Drives;
use mpm_script::{Event, Script, Timed};
use std::alloc::Global;
use std::test::Fail;

/// Bytes of the image of a seed, from a place on.
struct Part<'a>(u32, usize, &'a [u8]);

/// Parts of three images: directory entries, how programs start, a block of each kind, the ends of programs and of the file.
const PARTS: [Part; 19] = [
    Part(
        0,
        0,
        b"\x00G0      COM\x00\x00\x00\x37\x08\x00\x09\x00\x0A\x00\x0B\x00\x00\x00\x00\x00\x00\x00\x00\x00",
    ),
    Part(
        1,
        0,
        b"\x00G0      COM\x00\x00\x00\x39\x08\x00\x09\x00\x0A\x00\x0B\x00\x00\x00\x00\x00\x00\x00\x00\x00",
    ),
    Part(
        1,
        32,
        b"\x00G1      COM\x00\x00\x00\x38\x0C\x00\x0D\x00\x0E\x00\x0F\x00\x00\x00\x00\x00\x00\x00\x00\x00",
    ),
    Part(
        1,
        64,
        b"\x00DATA    DAT\x00\x00\x00\x20\x10\x00\x11\x00\x00\x00\x00\x00\x00\x00\x00\x00\x00\x00\x00\x00\xE5\xE5",
    ),
    Part(
        2147483647,
        32,
        b"\x00G1      COM\x00\x00\x00\x37\x0C\x00\x0D\x00\x0E\x00\x0F\x00\x00\x00\x00\x00\x00\x00\x00\x00",
    ),
    Part(1, 16382, b"\xE5\xE5\xC3\x40\x01\x00DATA\xA0   DAT\x00"),
    Part(
        1,
        16447,
        b"\x00\x0E\x0F\x11\x03\x01\xCD\x05\x00\x2A\x24\x01\x22\x30\x01\x2A\x30\x01",
    ),
    Part(
        1,
        16505,
        b"\x3E\x4F\x32\x80\x00\x21\x1B\x00\x22\x24\x01\x0E\x22\x11\x03\x01\xCD\x05\x00",
    ),
    Part(
        1,
        16482,
        b"\x21\x0B\x00\x22\x24\x01\x0E\x21\x11\x03\x01\xCD\x05\x00\x3A\x80\x00\x5F\x0E\x02\xCD\x05\x00",
    ),
    Part(
        1,
        16462,
        b"\x2A\x30\x01\x22\x80\x00\x21\x1E\x00\x22\x24\x01\x0E\x2A\x11\x03\x01\xCD\x05\x00",
    ),
    Part(
        1,
        16576,
        b"\x2A\x30\x01\x22\x80\x00\x21\x1E\x00\x22\x24\x01\x0E\x2B\x11\x03\x01\xCD\x05\x00",
    ),
    Part(1, 16596, b"\x11\x01\x00\x0E\x8D\xCD\x05\x00"),
    Part(
        1,
        16562,
        b"\x1E\x0D\x0E\x02\xCD\x05\x00\x1E\x0A\x0E\x02\xCD\x05\x00",
    ),
    Part(0, 23392, b"\xCD\x05\x00\x0E\x00\xCD\x05\x00\x00\x00"),
    Part(
        0,
        24654,
        b"\x21\x1F\x00\x22\x24\x01\x0E\x21\x11\x03\x01\xCD\x05\x00\x3A\x80\x00\x5F\x0E\x02\xCD\x05\x00",
    ),
    Part(
        1,
        24654,
        b"\x21\x09\x00\x22\x24\x01\x0E\x21\x11\x03\x01\xCD\x05\x00\x3A\x80\x00\x5F\x0E\x02\xCD\x05\x00",
    ),
    Part(
        2147483647,
        24654,
        b"\x1E\x0D\x0E\x02\xCD\x05\x00\x1E\x0A\x0E\x02\xCD\x05\x00",
    ),
    Part(
        2147483647,
        31494,
        b"\xCD\x05\x00\x0E\x00\xCD\x05\x00\x00\x00",
    ),
    Part(1, 36862, b"..\x00\x00"),
];

/// Whether bytes stand in others at a place.
fn stand_at(bytes: &[u8], place: usize, part: &[u8]) -> bool {
    place <= bytes.len()
        && part.len() <= bytes.len() - place
        && &bytes[place..place + part.len()] == part
}

/// The checksum of some bytes by which zlib knows them (RFC 1950, Adler-32).
fn checksum(bytes: &[u8]) -> u32 {
    let mut sum: u32 = 1;
    let mut sums: u32 = 0;
    for &byte in bytes {
        sum = sum.wrapping_add(u32::from(byte)) % 65521;
        sums = sums.wrapping_add(sum) % 65521;
    }
    sums.wrapping_mul(65536).wrapping_add(sum)
}

/// Whether the image of a seed has a checksum, and its parts of those above.
fn is_as_told(alloc: Global, seed: u32, sum: u32) -> Result<bool, Fail> {
    match image(alloc, seed) {
        Ok(image) => Ok(has_parts(image.as_slice(), seed) && checksum(image.as_slice()) == sum),
        Err(error) => Err(Fail::from(error)),
    }
}

/// Whether an image has the parts of its seed.
fn has_parts(image: &[u8], seed: u32) -> bool {
    for part in &PARTS {
        if part.0 == seed && !stand_at(image, part.1, part.2) {
            return false;
        }
    }
    image.len() == 4194304
}

#[test]
fn the_images_of_three_seeds(rt: HostRuntime) -> Result<(), Fail> {
    let alloc = rt.alloc();
    assert!(rt; is_as_told(alloc, 0, 0x6DAAC106)?);
    assert!(rt; is_as_told(alloc, 1, 0xA756D62B)?);
    assert!(rt; is_as_told(alloc, 2147483647, 0x6F6ABF2D)?);
    Ok(())
}

/// Whether a key is typed in step 0 as an event of a script.
fn has_key(script: &Script, place: usize, console: u8, byte: u8) -> bool {
    place < script.len()
        && script.at(place)
            == Timed {
                step: 0,
                event: Event::Key { console, byte },
            }
}

/// Whether the script calls both programs.
fn calls_both(script: &Script) -> bool {
    script.len() == 6
        && has_key(script, 0, 0, b'g')
        && has_key(script, 1, 0, b'0')
        && has_key(script, 2, 0, b'\r')
        && has_key(script, 3, 1, b'g')
        && has_key(script, 4, 1, b'1')
        && has_key(script, 5, 1, b'\r')
}

/// Whether the image `a` can be attached, and has its size.
fn has_image(generated: &mut Generated) -> bool {
    generated.drives.attach(0, "a").is_ok() && generated.drives.size(0) == Ok(4194304)
}

/// Whether a machine has two consoles and no printer, ticks, turns of the disk, two segments and a drive.
fn has_its_parts(machine: &MachineFile) -> bool {
    machine.consoles == 2
        && machine.printers == 0
        && machine.tick_every == 1000
        && machine.disk_turn == 20
        && machine.segments.as_slice().len() == 2
        && machine.drives.as_slice().len() == 1
}

/// Whether a seed made its machine, its script and its image.
fn is_made(generated: &mut Generated) -> bool {
    has_its_parts(&generated.machine) && calls_both(&generated.script) && has_image(generated)
}

#[test]
fn the_machine_of_a_seed(rt: HostRuntime) -> Result<(), Fail> {
    let mut generated = generate(rt.alloc(), 1)?;
    let made = is_made(&mut generated);
    assert!(rt; made);
    Ok(())
}
