//! Consoles, their keys and lines, and printers.
use mpm_base::functions;
use mpm_kernel_scenes::Completion::{Again, Done};
use mpm_kernel_scenes::Line::{
    Aborts, Ask, AskWith, Begin, BeginOther, BeginResident, CompletesNone, Echoes, End, Keys, Lost,
    Next, NextAfterInstruction, Places, Write,
};
use mpm_kernel_scenes::{BLOCK, kernel_with_system_queue, play, play_on};
use std::test::Fail;

const CONTROL_C: u8 = 0x03;

const CONTROL_D: u8 = 0x04;

const CONTROL_Q: u8 = 0x11;

const CONTROL_S: u8 = 0x13;

#[test]
fn tabs_go_to_the_next_column_divisible_by_eight(rt: HostRuntime) -> Result<(), Fail> {
    play(
        rt.alloc(),
        &[
            Write(1, b'A', true, 0),
            Write(1, b'\t', true, 7),
            Write(1, b'\t', false, 0),
            Write(1, b'\t', true, 8),
            Write(0, b'\t', true, 8),
        ],
    )
}

#[test]
fn keys_that_nobody_awaits_are_stored_up_to_sixty_four(rt: HostRuntime) -> Result<(), Fail> {
    play(
        rt.alloc(),
        &[
            Keys(b'A', 1),
            CompletesNone,
            NextAfterInstruction(Some(0)),
            Keys(b'b', 63),
            Lost(0),
            Keys(b'e', 1),
            Lost(1),
            Ask(functions::GET_CONSOLE_STATUS, 0, Done(1)),
            Ask(functions::CONSOLE_INPUT, 0, Done(0x41)),
        ],
    )
}

#[test]
fn stopped_output_waits_until_it_goes_on(rt: HostRuntime) -> Result<(), Fail> {
    play(
        rt.alloc(),
        &[
            Ask(functions::PRINT_STRING, 0x0200, Done(0)),
            Keys(CONTROL_S, 1),
            Ask(functions::PRINT_STRING, 0x0200, Again),
            Next(None),
            Keys(b'a', 1),
            Next(None),
            Keys(CONTROL_Q, 1),
            Next(Some(0)),
            Ask(functions::PRINT_STRING, 0x0200, Done(0)),
        ],
    )
}

#[test]
fn a_line_is_read_key_by_key(rt: HostRuntime) -> Result<(), Fail> {
    play(
        rt.alloc(),
        &[
            AskWith(functions::READ_CONSOLE_BUFFER, BLOCK, &[10], Again),
            Places(0, &[]),
            Echoes(b""),
            Next(None),
            Keys(b'a', 1),
            Keys(b'b', 1),
            Keys(0x08, 1),
            Keys(b'c', 1),
            Keys(b'\r', 1),
            Next(Some(0)),
            AskWith(functions::READ_CONSOLE_BUFFER, BLOCK, &[10], Again),
            Places(0, &[]),
            Echoes(b"a"),
            Next(Some(0)),
            AskWith(functions::READ_CONSOLE_BUFFER, BLOCK, &[10], Again),
            Places(0, &[]),
            Echoes(b"b"),
            AskWith(functions::READ_CONSOLE_BUFFER, BLOCK, &[10], Again),
            Places(0, &[]),
            Echoes(b"\x08 \x08"),
            AskWith(functions::READ_CONSOLE_BUFFER, BLOCK, &[10], Again),
            Places(0, &[]),
            Echoes(b"c"),
            AskWith(functions::READ_CONSOLE_BUFFER, BLOCK, &[10], Done(0)),
            Places(0x0201, &[2, b'a', b'c']),
            Echoes(b"\r"),
        ],
    )
}

#[test]
fn a_printer_of_another_is_waited_for_or_refused(rt: HostRuntime) -> Result<(), Fail> {
    play(
        rt.alloc(),
        &[
            Begin(200),
            Next(Some(0)),
            Ask(functions::ATTACH_LIST, 0, Done(0)),
            Ask(functions::DISPATCH, 0, Done(0)),
            Next(Some(1)),
            Ask(functions::CONDITIONAL_ATTACH_LIST, 0, Done(0x00FF)),
            Ask(functions::ATTACH_LIST, 0, Again),
            Next(Some(0)),
            Ask(functions::DETACH_LIST, 0, Done(0)),
            Ask(functions::CONDITIONAL_ATTACH_LIST, 0, Done(0x00FF)),
            Ask(functions::DISPATCH, 0, Done(0)),
            Next(Some(1)),
            Ask(functions::ATTACH_LIST, 0, Done(0)),
            Ask(functions::ATTACH_LIST, 0, Done(0)),
        ],
    )
}

#[test]
fn a_machine_without_printers_refuses_their_calls(rt: HostRuntime) -> Result<(), Fail> {
    let mut kernel = kernel_with_system_queue(rt.alloc())?;
    play_on(
        &mut kernel,
        &[
            Ask(functions::ATTACH_LIST, 0, Done(0x00FF)),
            Ask(functions::DETACH_LIST, 0, Done(0x00FF)),
            Ask(functions::SET_LIST, 0, Done(0x00FF)),
            Ask(functions::CONDITIONAL_ATTACH_LIST, 0, Done(0x00FF)),
            Ask(functions::LIST_OUTPUT, 0x0041, Done(0x00FF)),
            Ask(functions::GET_LIST_NUMBER, 0, Done(0)),
        ],
    )
}

#[test]
fn a_key_aborts_the_owner_once(rt: HostRuntime) -> Result<(), Fail> {
    play(
        rt.alloc(),
        &[
            Keys(CONTROL_C, 1),
            Aborts(None),
            Echoes(b""),
            Ask(functions::ATTACH_CONSOLE, 0, Done(0)),
            Keys(CONTROL_C, 1),
            Ask(functions::RETURN_VERSION_NUMBER, 0, Done(0x0130)),
            Echoes(b"^C\r\n"),
            Aborts(Some(0)),
            Aborts(None),
        ],
    )
}

#[test]
fn no_key_aborts_a_resident(rt: HostRuntime) -> Result<(), Fail> {
    play(
        rt.alloc(),
        &[
            BeginResident(210),
            End(0),
            Next(Some(1)),
            Ask(functions::ATTACH_CONSOLE, 0, Done(0)),
            Keys(CONTROL_C, 1),
            Keys(CONTROL_D, 1),
            Aborts(None),
            Echoes(b""),
        ],
    )
}

#[test]
fn a_console_passes_to_the_one_that_waits(rt: HostRuntime) -> Result<(), Fail> {
    play(
        rt.alloc(),
        &[
            Begin(190),
            Begin(200),
            Ask(functions::CONSOLE_INPUT, 0, Again),
            Next(Some(1)),
            Ask(functions::ATTACH_CONSOLE, 0, Again),
            Next(Some(2)),
            Keys(CONTROL_D, 1),
            Next(Some(1)),
            Ask(functions::ATTACH_CONSOLE, 0, Done(0)),
            End(1),
            Next(Some(2)),
        ],
    )
}

#[test]
fn a_console_is_assigned_by_name(rt: HostRuntime) -> Result<(), Fail> {
    play(
        rt.alloc(),
        &[
            BeginOther(210),
            AskWith(
                functions::ASSIGN_CONSOLE,
                BLOCK,
                b"\x02OTHER   \x00",
                Done(0x00FF),
            ),
            AskWith(
                functions::ASSIGN_CONSOLE,
                BLOCK,
                b"\x01NOBODY  \x00",
                Done(0x00FF),
            ),
            AskWith(
                functions::ASSIGN_CONSOLE,
                BLOCK,
                b"\x01OTHER   \xFF",
                Done(0x00FF),
            ),
            AskWith(
                functions::ASSIGN_CONSOLE,
                BLOCK,
                b"\x01OTHER   \x00",
                Done(0),
            ),
            AskWith(
                functions::ASSIGN_CONSOLE,
                BLOCK,
                b"\x01OTHER   \xFF",
                Done(0x00FF),
            ),
            Ask(functions::SET_CONSOLE, 1, Again),
            Next(Some(1)),
            Ask(functions::GET_CONSOLE_NUMBER, 0, Done(1)),
            Ask(functions::CONDITIONAL_ATTACH_CONSOLE, 0, Done(0)),
            AskWith(
                functions::ASSIGN_CONSOLE,
                BLOCK,
                b"\x01PROGRAM \xFF",
                Done(0),
            ),
            Next(Some(0)),
            Ask(functions::SET_CONSOLE, 1, Done(0)),
            Ask(functions::SET_CONSOLE, 2, Done(0x00FF)),
        ],
    )
}
