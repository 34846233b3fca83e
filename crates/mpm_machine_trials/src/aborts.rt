//! Aborts, at once and put off: what two programs of a whole machine see of them.
use mpm_machine_scenes::Register::{Halted, Hl, Pc};
use mpm_machine_scenes::Sight::{Has, Lives};
use mpm_machine_scenes::{Behind, traced};
use std::test::Fail;

/// Function 142, then JR to itself: the other program runs.
const YIELDING: &[u8] = b"\x0E\x8E\xCD\x05\x40\x18\xFE";

/// LD C,157; LD DE,4109h; CALL 4005h; HALT; and the block of the abort of FIRST on console 0.
const ABORTING_BY_NAME: &[u8] = b"\x0E\x9D\x11\x09\x41\xCD\x05\x40\x76\x00\x00\x00\x00FIRST   \x00";

/// Such an abort by the address F800h, of the descriptor of process 0; name and console are another's.
const ABORTING_BY_ADDRESS: &[u8] =
    b"\x0E\x9D\x11\x09\x41\xCD\x05\x40\x76\x00\xF8\x00\x00SECOND  \x07";

/// Such an abort of OTHER, of which there is none.
const ABORTING_NOBODY: &[u8] = b"\x0E\x9D\x11\x09\x41\xCD\x05\x40\x76\x00\x00\x00\x00OTHER   \x00";

/// Makes the queue `MXtest  ` (function 134, its block at 412Eh), opens it (135, its block at 413Ch), writes its message (139) and reads it
/// (137). Lets the other program run (142), writes the message back (139), and comes to HALT.
const HOLDING: &[u8] = b"\x0E\x86\x11\x2E\x41\xCD\x05\x40\
\x0E\x87\x11\x3C\x41\xCD\x05\x40\
\x0E\x8B\x11\x3C\x41\xCD\x05\x40\
\x0E\x89\x11\x3C\x41\xCD\x05\x40\
\x0E\x8E\xCD\x05\x40\
\x0E\x8B\x11\x3C\x41\xCD\x05\x40\
\x76\
\x00\x00MXtest  \x00\x00\x01\x00\
\x00\x00\x00\x42MXtest  ";

/// Opens that queue (function 135, its block at 4126h), aborts FIRST on console 0 (157, its block at 4119h), reads the message
/// of the queue (137), and comes to HALT.
const WAITING_TO_READ: &[u8] = b"\x0E\x87\x11\x26\x41\xCD\x05\x40\
\x0E\x9D\x11\x19\x41\xCD\x05\x40\
\x0E\x89\x11\x26\x41\xCD\x05\x40\
\x76\
\x00\x00\x00\x00FIRST   \x00\
\x00\x00\x00\x42MXtest  ";

/// Makes the queue `MXtest  ` (its block at 4131h), opens it (its block at 413Fh), writes its message and reads it, aborts
/// itself (function 157, its block at 414Bh), writes the message back, and comes to HALT.
const ABORTING_ITSELF: &[u8] = b"\x0E\x86\x11\x31\x41\xCD\x05\x40\
\x0E\x87\x11\x3F\x41\xCD\x05\x40\
\x0E\x8B\x11\x3F\x41\xCD\x05\x40\
\x0E\x89\x11\x3F\x41\xCD\x05\x40\
\x0E\x9D\x11\x4B\x41\xCD\x05\x40\
\x0E\x8B\x11\x3F\x41\xCD\x05\x40\
\x76\
\x00\x00MXtest  \x00\x00\x01\x00\
\x00\x00\x00\x42MXtest  \
\x00\x00\x00\x00FIRST   \x00";

/// What it writes up to its end.
const UP_TO_ITS_END: &[u8] = b"t 5 0 134 00 0086 4131 0000
t 10 0 135 00 0087 413F 0000
t 15 0 139 00 008B 413F 0000
t 20 0 137 00 0089 413F 0000
t 25 0 157 00 009D 414B 0000
t 30 0 139 00 008B 413F 0000
";

/// What the two write up to the step in which the second waits to read.
const UP_TO_THE_WAIT: &[u8] = b"t 5 0 134 00 0086 412E 0000
t 10 0 135 00 0087 413C 0000
t 15 0 139 00 008B 413C 0000
t 20 0 137 00 0089 413C 0000
t 24 0 142 00 008E 413C 0000
t 29 1 135 00 0087 4126 0000
t 34 1 157 00 009D 4119 0000
";

/// And up to the step in which the first writes the message.
const UP_TO_THE_WRITE: &[u8] = b"t 5 0 134 00 0086 412E 0000
t 10 0 135 00 0087 413C 0000
t 15 0 139 00 008B 413C 0000
t 20 0 137 00 0089 413C 0000
t 24 0 142 00 008E 413C 0000
t 29 1 135 00 0087 4126 0000
t 34 1 157 00 009D 4119 0000
t 44 0 139 00 008B 413C 0000
t 44 1 137 00 0089 4126 0000
";

#[test]
fn who_holds_a_message_ends_in_the_step_that_writes_it(rt: HostRuntime) -> Result<(), Fail> {
    traced(HOLDING, WAITING_TO_READ).shows(
        rt.alloc(),
        &[
            Behind(43, UP_TO_THE_WAIT, &[Lives(0, true)]),
            Behind(44, UP_TO_THE_WRITE, &[Lives(0, false)]),
            Behind(
                45,
                UP_TO_THE_WRITE,
                &[Has(1, Hl, 0), Has(1, Pc, 0x4119), Has(1, Halted, 1)],
            ),
        ],
    )
}

#[test]
fn an_abort_by_name_ends_at_once(rt: HostRuntime) -> Result<(), Fail> {
    let text = b"t 4 0 142 00 008E 0000 0000\nt 9 1 157 00 009D 4109 0000\n";
    traced(YIELDING, ABORTING_BY_NAME).shows(
        rt.alloc(),
        &[
            Behind(8, b"t 4 0 142 00 008E 0000 0000\n", &[Lives(0, true)]),
            Behind(9, text, &[Lives(0, false)]),
            Behind(10, text, &[Has(1, Hl, 0), Has(1, Halted, 1)]),
        ],
    )
}

#[test]
fn an_abort_by_address_looks_at_no_name(rt: HostRuntime) -> Result<(), Fail> {
    let text = b"t 4 0 142 00 008E 0000 0000\nt 9 1 157 00 009D 4109 0000\n";
    traced(YIELDING, ABORTING_BY_ADDRESS).shows(rt.alloc(), &[Behind(9, text, &[Lives(0, false)])])
}

#[test]
fn an_abort_of_nobody_is_refused(rt: HostRuntime) -> Result<(), Fail> {
    let text = b"t 4 0 142 00 008E 0000 0000\nt 9 1 157 FF 009D 4109 00FF\n";
    traced(YIELDING, ABORTING_NOBODY).shows(rt.alloc(), &[Behind(9, text, &[Lives(0, true)])])
}

#[test]
fn who_aborts_itself_ends_without_an_answer(rt: HostRuntime) -> Result<(), Fail> {
    traced(ABORTING_BY_NAME, YIELDING).shows(
        rt.alloc(),
        &[
            Behind(4, b"", &[Lives(0, true)]),
            Behind(5, b"", &[Lives(0, false)]),
        ],
    )
}

#[test]
fn who_aborts_itself_holding_a_message_is_answered_and_goes_on(
    rt: HostRuntime,
) -> Result<(), Fail> {
    traced(ABORTING_ITSELF, YIELDING).shows(
        rt.alloc(),
        &[Behind(30, UP_TO_ITS_END, &[Lives(0, false)])],
    )
}
