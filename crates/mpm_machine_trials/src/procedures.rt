//! Resident procedures: what programs see of them.
use mpm_machine_scenes::Register::{A, B, C, De, Hl, Pc, Sp};
use mpm_machine_scenes::Sight::{Has, Lives};
use mpm_machine_scenes::{Behind, alone, traced};
use std::test::Fail;

/// Makes the queue `PROC    ` (function 134, its block at 013Ah), opens it (135, its block at 0148h), writes the message 0200h
/// (139), puts INC DE; EX DE,HL; RET there, and other bytes where the message stood. Calls the procedure with the parameter
/// 1234h (151), comes back to 012Eh, reads the queue (138), and takes the message into HL.
const CALLING: &[u8] = b"\x0E\x86\x11\x3A\x01\xCD\x05\x00\
\x0E\x87\x11\x48\x01\xCD\x05\x00\
\x0E\x8B\x11\x48\x01\xCD\x05\x00\
\x21\x13\xEB\x22\x00\x02\x3E\xC9\x32\x02\x02\x22\x60\x01\
\x0E\x97\x11\x54\x01\xCD\x05\x00\
\x0E\x8A\x11\x48\x01\xCD\x05\x00\
\x2A\x60\x01\x76\
\x00\x00PROC    \x02\x00\x01\x00\
\x00\x00\x60\x01PROC    \
\x58\x01\x34\x12PROC    \
\x00\x02";

/// Makes such a queue with the message 4121h, and calls the procedure that stands there, which lets others run (142) for ever.
const STAYING: &[u8] = b"\x0E\x86\x11\x28\x41\xCD\x05\x40\
\x0E\x87\x11\x36\x41\xCD\x05\x40\
\x0E\x8B\x11\x36\x41\xCD\x05\x40\
\x0E\x97\x11\x42\x41\xCD\x05\x40\x76\
\x0E\x8E\xCD\x05\x40\x18\xF9\
\x00\x00PROC    \x02\x00\x01\x00\
\x00\x00\x4E\x41PROC    \
\x46\x41\x34\x12PROC    \
\x21\x41";

/// Opens that queue, creates a process (144), lets others run, aborts FIRST on console 0 (157), and lets others run. The
/// process reads from the queue (137), and takes the message into HL.
const ABORTING: &[u8] = b"\x0E\x87\x11\x4C\x41\xCD\x05\x40\
\x0E\x90\x11\x2F\x41\xCD\x05\x40\
\x0E\x8E\xCD\x05\x40\
\x0E\x9D\x11\x3F\x41\xCD\x05\x40\
\x0E\x8E\xCD\x05\x40\x76\
\x0E\x89\x11\x4C\x41\xCD\x05\x40\x2A\x58\x41\x76\
\x00\x00\x00\xC8\x6A\x41CHILD   \x00\x00\
\x00\x00\x00\x00FIRST   \x00\
\x00\x00\x58\x41PROC    \
\x00\x00\x00\x00\x00\x00\x00\x00\x00\x00\x00\x00\x00\x00\x00\x00\x00\x00\
\x23\x41";

/// Makes the queue and opens it, lets the other program run, writes the message 4109h, and lets it run again.
const GIVING: &[u8] = b"\x0E\x86\x11\x23\x41\xCD\x05\x40\
\x0E\x87\x11\x31\x41\xCD\x05\x40\
\x0E\x8E\xCD\x05\x40\
\x0E\x8B\x11\x31\x41\xCD\x05\x40\
\x0E\x8E\xCD\x05\x40\x76\
\x00\x00PROC    \x02\x00\x01\x00\
\x00\x00\x3D\x41PROC    \
\x09\x41";

/// Calls the procedure with the parameter 1234h, and comes to HALT at 4108h. At 4109h stand INC DE; EX DE,HL; RET.
const WAITING: &[u8] = b"\x0E\x97\x11\x0C\x41\xCD\x05\x40\x76\x13\xEB\xC9\x10\x41\x34\x12PROC    ";

/// Puts INC C at BF09h, and goes there.
const AT_NO_GATE: &[u8] = b"\x3E\x0C\x32\x09\xBF\xC3\x09\xBF";

/// Up to the return of the procedure that it calls.
const UP_TO_THE_RETURN: &[u8] = b"t 5 0 134 00 0086 013A 0000
t 10 0 135 00 0087 0148 0000
t 15 0 139 00 008B 0148 0000
t 25 0 151 00 0097 1234 0000
";

/// And up to its read.
const UP_TO_THE_READ: &[u8] = b"t 5 0 134 00 0086 013A 0000
t 10 0 135 00 0087 0148 0000
t 15 0 139 00 008B 0148 0000
t 25 0 151 00 0097 1234 0000
t 34 0 138 00 008A 0148 0000
";

#[test]
fn a_procedure_comes_back_with_its_result(rt: HostRuntime) -> Result<(), Fail> {
    alone(CALLING, true).shows(
        rt.alloc(),
        &[
            Behind(
                25,
                UP_TO_THE_RETURN,
                &[
                    Has(0, Pc, 0x0200),
                    Has(0, Sp, 0xBEFC),
                    Has(0, De, 0x1234),
                    Has(0, Hl, 0),
                ],
            ),
            Behind(
                28,
                UP_TO_THE_RETURN,
                &[Has(0, Pc, 0xBF09), Has(0, Sp, 0xBEFE)],
            ),
            Behind(
                29,
                UP_TO_THE_RETURN,
                &[
                    Has(0, Pc, 0x012E),
                    Has(0, Sp, 0xBEFE),
                    Has(0, Hl, 0x1235),
                    Has(0, A, 0x35),
                    Has(0, B, 0x12),
                ],
            ),
        ],
    )
}

#[test]
fn a_procedure_gives_its_message_back(rt: HostRuntime) -> Result<(), Fail> {
    alone(CALLING, true).shows(
        rt.alloc(),
        &[Behind(35, UP_TO_THE_READ, &[Has(0, Hl, 0x0200)])],
    )
}

#[test]
fn nobody_else_has_the_gate_of_a_procedure(rt: HostRuntime) -> Result<(), Fail> {
    alone(AT_NO_GATE, true).shows(
        rt.alloc(),
        &[Behind(4, b"", &[Has(0, Pc, 0xBF0A), Has(0, C, 1)])],
    )
}

/// What the two programs write up to the step in which the second aborts the first.
const UP_TO_THE_ABORT: &[u8] = b"t 5 0 134 00 0086 4128 0000
t 10 0 135 00 0087 4136 0000
t 15 0 139 00 008B 4136 0000
t 20 0 151 00 0097 1234 0000
t 24 0 142 00 008E 1234 0000
t 29 1 135 00 0087 414C 0000
t 34 1 144 00 0090 412F 0000
t 38 1 142 00 008E 412F 0000
t 43 0 142 00 008E 1234 0000
";

/// And after it.
const BEHIND_THE_ABORT: &[u8] = b"t 5 0 134 00 0086 4128 0000
t 10 0 135 00 0087 4136 0000
t 15 0 139 00 008B 4136 0000
t 20 0 151 00 0097 1234 0000
t 24 0 142 00 008E 1234 0000
t 29 1 135 00 0087 414C 0000
t 34 1 144 00 0090 412F 0000
t 38 1 142 00 008E 412F 0000
t 43 0 142 00 008E 1234 0000
t 53 1 157 00 009D 413F 0000
t 53 2 137 00 0089 414C 0000
";

/// And once the aborting process gave up the processor.
const BEHIND_THE_READ: &[u8] = b"t 5 0 134 00 0086 4128 0000
t 10 0 135 00 0087 4136 0000
t 15 0 139 00 008B 4136 0000
t 20 0 151 00 0097 1234 0000
t 24 0 142 00 008E 1234 0000
t 29 1 135 00 0087 414C 0000
t 34 1 144 00 0090 412F 0000
t 38 1 142 00 008E 412F 0000
t 43 0 142 00 008E 1234 0000
t 53 1 157 00 009D 413F 0000
t 53 2 137 00 0089 414C 0000
t 57 1 142 00 008E 413F 0000
";

#[test]
fn an_abort_gives_the_message_of_a_procedure_back(rt: HostRuntime) -> Result<(), Fail> {
    traced(STAYING, ABORTING).shows(
        rt.alloc(),
        &[
            Behind(52, UP_TO_THE_ABORT, &[Lives(0, true)]),
            Behind(53, BEHIND_THE_ABORT, &[Lives(0, false)]),
            Behind(54, BEHIND_THE_ABORT, &[Has(2, Pc, 0x412B), Has(2, Hl, 0)]),
            Behind(
                58,
                BEHIND_THE_READ,
                &[Has(2, Pc, 0x412E), Has(2, Hl, 0x4121)],
            ),
        ],
    )
}

#[test]
fn who_waits_for_a_procedure_enters_it_with_its_message(rt: HostRuntime) -> Result<(), Fail> {
    let text = b"t 5 0 134 00 0086 4123 0000
t 10 0 135 00 0087 4131 0000
t 14 0 142 00 008E 4131 0000
t 24 0 139 00 008B 4131 0000
t 24 1 151 00 0097 1234 0000
t 28 0 142 00 008E 4131 0000
";
    traced(GIVING, WAITING).shows(
        rt.alloc(),
        &[
            Behind(28, text, &[Has(1, Pc, 0x4109), Has(1, Sp, 0x4EFC)]),
            Behind(
                32,
                text,
                &[
                    Has(1, Pc, 0x4108),
                    Has(1, Sp, 0x4EFE),
                    Has(1, Hl, 0x1235),
                    Has(1, A, 0x35),
                    Has(1, B, 0x12),
                ],
            ),
        ],
    )
}
