//! Messages that ends give back, and resident procedures.
use mpm_base::functions;
use mpm_kernel_scenes::Completion::{Done, Held};
use mpm_kernel_scenes::Line::{
    Ask, Begin, Completes, Delete, Delivers, End, Holds, Inside, Make, Name, Next, Pass,
};
use mpm_kernel_scenes::play;
use std::test::Fail;

#[test]
fn the_message_of_who_ends_goes_to_who_waits_for_it(rt: HostRuntime) -> Result<(), Fail> {
    play(
        rt.alloc(),
        &[
            Begin(200),
            Make(b"MXtest  ", 0, 1, Done(0)),
            Pass(functions::WRITE_QUEUE, 1, 0, Done(0)),
            Pass(functions::READ_QUEUE, 1, 0, Done(0)),
            Ask(functions::DISPATCH, 0, Done(0)),
            Next(Some(1)),
            Pass(functions::READ_QUEUE, 1, 0, Held),
            Holds(0, true),
            Holds(1, false),
            End(0),
            Delivers(1, 0),
            Holds(0, false),
            Holds(1, true),
            Next(Some(1)),
        ],
    )
}

#[test]
fn calls_of_procedures_that_are_refused(rt: HostRuntime) -> Result<(), Fail> {
    play(
        rt.alloc(),
        &[
            Make(b"PROC    ", 2, 1, Done(0)),
            Make(b"BYTE    ", 1, 1, Done(0)),
            Pass(functions::WRITE_QUEUE, 1, 0x41, Done(0)),
            Name(
                functions::CALL_RESIDENT_SYSTEM_PROCEDURE,
                b"NONE    ",
                Done(0xFFFF),
            ),
            Name(
                functions::CALL_RESIDENT_SYSTEM_PROCEDURE,
                b"BYTE    ",
                Done(0xFFFF),
            ),
            Name(
                functions::CALL_RESIDENT_SYSTEM_PROCEDURE,
                b"PROC    ",
                Done(0),
            ),
            Name(
                functions::CALL_RESIDENT_SYSTEM_PROCEDURE,
                b"PROC    ",
                Done(0xFFFF),
            ),
            Delete(b"PROC    ", Done(0x00FF)),
            Inside(0, 0, 0x0041),
        ],
    )
}

#[test]
fn who_waits_for_a_procedure_is_in_it_after_an_end(rt: HostRuntime) -> Result<(), Fail> {
    play(
        rt.alloc(),
        &[
            Begin(200),
            Make(b"PROC    ", 2, 1, Done(0)),
            Pass(functions::WRITE_QUEUE, 1, 0x41, Done(0)),
            Name(
                functions::CALL_RESIDENT_SYSTEM_PROCEDURE,
                b"PROC    ",
                Done(0),
            ),
            Ask(functions::DISPATCH, 0, Done(0)),
            Next(Some(1)),
            Name(functions::CALL_RESIDENT_SYSTEM_PROCEDURE, b"PROC    ", Held),
            End(0),
            Completes(1),
            Inside(1, 0, 0x0041),
        ],
    )
}
