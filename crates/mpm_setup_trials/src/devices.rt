//! A sink that counts lines.
use mpm_devices::LineCounts;
use mpm_port::Sink;
use std::test::Fail;

/// Pieces of a text, not by its lines: two lines of consoles, one of a printer, one of a completed call and one that is
/// unfinished, and an empty one.
const PIECES: [&[u8]; 6] = [
    b"c0 Hi c\n",
    b"t 5 0 9\nl0 c\n",
    b"",
    b"c",
    b"1 t\n\n",
    b"t",
];

/// Puts the pieces one after the other, and says whether each put went well.
fn puts_all(counts: &mut LineCounts) -> bool {
    for piece in &PIECES {
        if counts.put(piece).is_err() {
            return false;
        }
    }
    true
}

/// Whether that many lines of consoles and of completed calls were counted.
fn has(counts: &LineCounts, of_consoles: u64, of_calls: u64) -> bool {
    counts.of_consoles() == of_consoles && counts.of_calls() == of_calls
}

#[test]
fn lines_are_counted_by_their_first_byte(rt: HostRuntime) -> Result<(), Fail> {
    let mut counts = LineCounts::new(rt.alloc())?;
    assert!(rt; has(&counts, 0, 0));
    assert!(rt; puts_all(&mut counts));
    assert!(rt; has(&counts, 2, 2));
    Ok(())
}
