//! What calls, events and ends come to, as the guides tell it.
use mpm_base::functions;
use mpm_kernel_scenes::Completion::{Done, Ended, Held};
use mpm_kernel_scenes::Line::{
    Ask, AskWith, Begin, Completes, CompletesNone, CompletesTwo, End, Flag, FreeSlots, Interrupts,
    Keeps, Last, Lives, Multi, Next, NextAfterInstruction, Places, Priority, Ready, Runs, Second,
    Tick,
};
use mpm_kernel_scenes::play;
use std::test::Fail;

#[test]
fn functions_that_only_answer_and_those_that_end_their_caller(rt: HostRuntime) -> Result<(), Fail> {
    play(
        rt.alloc(),
        &[
            Ask(functions::RETURN_VERSION_NUMBER, 0, Done(0x0130)),
            Ask(functions::RETURN_MPM_VERSION_NUMBER, 0, Done(0x0130)),
            Ask(7, 0, Done(0xFFFF)),
            Ask(255, 0, Done(0xFFFF)),
            Ask(functions::SYSTEM_RESET, 0, Ended),
            Ask(functions::TERMINATE_PROCESS, 0xFFFF, Ended),
        ],
    )
}

#[test]
fn a_process_keeps_what_its_calls_set(rt: HostRuntime) -> Result<(), Fail> {
    play(
        rt.alloc(),
        &[
            Ask(functions::SET_GET_USER_CODE, 0x00FF, Done(3)),
            Ask(functions::SET_GET_USER_CODE, 0x1234, Done(0)),
            Ask(functions::SET_GET_USER_CODE, 0x12FF, Done(4)),
            Ask(functions::RETURN_CURRENT_DISK, 0, Done(1)),
            Ask(functions::SET_MULTI_SECTOR_COUNT, 0, Done(0x00FF)),
            Ask(functions::SET_MULTI_SECTOR_COUNT, 17, Done(0x00FF)),
            Multi(0, 1),
            Ask(functions::SET_MULTI_SECTOR_COUNT, 16, Done(0)),
            Multi(0, 16),
            Ask(functions::SET_DMA_ADDRESS, 0xC000, Done(0)),
            Ask(functions::SET_BDOS_ERROR_MODE, 0x01FE, Done(0)),
            AskWith(
                functions::SET_DEFAULT_PASSWORD,
                0x0200,
                b"SECRET  ",
                Done(0),
            ),
            Keeps(0, 0xC000, 0xFE, b"SECRET  "),
        ],
    )
}

#[test]
fn equals_run_in_turn(rt: HostRuntime) -> Result<(), Fail> {
    play(
        rt.alloc(),
        &[
            Begin(200),
            NextAfterInstruction(Some(0)),
            Ask(functions::DISPATCH, 0, Done(0)),
            Next(Some(1)),
            Ask(functions::DISPATCH, 0, Done(0)),
            Next(Some(0)),
        ],
    )
}

#[test]
fn a_process_that_changes_its_priority_stands_behind_its_equals(
    rt: HostRuntime,
) -> Result<(), Fail> {
    play(
        rt.alloc(),
        &[
            Begin(100),
            Next(Some(1)),
            Ask(functions::SET_PRIORITY, 0x01C8, Done(0)),
            Next(Some(0)),
            Ask(functions::SET_PRIORITY, 0x00C7, Done(0)),
            Next(Some(0)),
            Priority(0, 199),
        ],
    )
}

#[test]
fn interrupts_that_are_off_keep_the_processor_after_an_instruction(
    rt: HostRuntime,
) -> Result<(), Fail> {
    play(
        rt.alloc(),
        &[
            Interrupts(false, false),
            Begin(100),
            NextAfterInstruction(Some(0)),
            Interrupts(true, true),
            NextAfterInstruction(Some(0)),
            Interrupts(true, false),
            NextAfterInstruction(Some(1)),
            Interrupts(false, false),
            Begin(99),
            Next(Some(2)),
        ],
    )
}

#[test]
fn who_ends_frees_a_slot_and_the_next_one_runs(rt: HostRuntime) -> Result<(), Fail> {
    play(
        rt.alloc(),
        &[
            Begin(200),
            Interrupts(false, false),
            End(0),
            Runs(None),
            Lives(0, false),
            FreeSlots(31),
            NextAfterInstruction(Some(1)),
            Begin(199),
            NextAfterInstruction(Some(0)),
        ],
    )
}

#[test]
fn a_flag_is_set_once_and_those_of_the_system_are_refused(rt: HostRuntime) -> Result<(), Fail> {
    play(
        rt.alloc(),
        &[
            Ask(functions::FLAG_SET, 5, Done(0)),
            Ask(functions::FLAG_SET, 5, Done(0x00FF)),
            Ask(functions::FLAG_WAIT, 5, Done(0)),
            Ask(functions::FLAG_SET, 5, Done(0)),
            Ask(functions::FLAG_WAIT, 3, Done(0x00FF)),
            Ask(functions::FLAG_SET, 3, Done(0x00FF)),
            Ask(functions::FLAG_WAIT, 32, Done(0x00FF)),
            Ask(functions::FLAG_SET, 32, Done(0x00FF)),
            Ask(functions::FLAG_SET, 0x0104, Done(0)),
            Ask(functions::FLAG_SET, 31, Done(0)),
        ],
    )
}

#[test]
fn one_process_waits_for_a_flag_until_it_is_set(rt: HostRuntime) -> Result<(), Fail> {
    play(
        rt.alloc(),
        &[
            Begin(200),
            Ask(functions::FLAG_WAIT, 6, Held),
            Next(Some(1)),
            Ask(functions::FLAG_WAIT, 6, Done(0x00FF)),
            Flag(6),
            Completes(0),
            Flag(6),
            CompletesNone,
            Ask(functions::FLAG_WAIT, 6, Done(0)),
        ],
    )?;
    play(
        rt.alloc(),
        &[
            Begin(201),
            Ask(functions::FLAG_WAIT, 31, Held),
            Next(Some(1)),
            Ask(functions::FLAG_SET, 31, Done(0)),
            Next(Some(0)),
            Ask(functions::FLAG_SET, 31, Done(0)),
        ],
    )
}

#[test]
fn a_tick_puts_who_runs_behind_those_it_wakes(rt: HostRuntime) -> Result<(), Fail> {
    play(
        rt.alloc(),
        &[
            Ask(functions::DELAY, 1, Held),
            Begin(199),
            Next(Some(1)),
            Ask(functions::DELAY, 1, Held),
            Begin(200),
            Next(Some(2)),
            Tick,
            CompletesTwo(0, 1),
            Next(Some(1)),
            End(1),
            Next(Some(0)),
            End(0),
            Next(Some(2)),
            End(2),
            Next(None),
        ],
    )
}

#[test]
fn a_delay_of_no_ticks_is_a_dispatch(rt: HostRuntime) -> Result<(), Fail> {
    play(
        rt.alloc(),
        &[
            Begin(200),
            Ask(functions::DELAY, 0, Done(0)),
            Next(Some(1)),
            Tick,
            CompletesNone,
            Next(Some(0)),
        ],
    )
}

#[test]
fn a_poll_waits_until_its_device_is_ready(rt: HostRuntime) -> Result<(), Fail> {
    play(
        rt.alloc(),
        &[
            Ask(functions::POLL, 16, Done(0x00FF)),
            Ask(functions::POLL, 2, Held),
            Next(None),
            Ready(1, 7),
            CompletesNone,
            Ready(2, 9),
            Completes(0),
            Next(Some(0)),
            Ask(functions::POLL, 2, Done(0)),
            Ask(functions::POLL, 2, Done(0)),
            Last(2, 9),
        ],
    )
}

#[test]
fn who_ends_waits_no_more(rt: HostRuntime) -> Result<(), Fail> {
    play(
        rt.alloc(),
        &[
            Ask(functions::FLAG_WAIT, 7, Held),
            Begin(200),
            Next(Some(1)),
            Ask(functions::DELAY, 1, Held),
            End(0),
            End(1),
            Flag(7),
            CompletesNone,
            Tick,
            CompletesNone,
            Next(None),
        ],
    )
}

#[test]
fn date_and_time_are_told_in_packed_decimal(rt: HostRuntime) -> Result<(), Fail> {
    play(
        rt.alloc(),
        &[
            Ask(functions::GET_DATE_TIME_AND_SECOND, 0x0300, Done(0)),
            Places(0x0300, &[0x2C, 0x01, 0x23, 0x59, 0x58]),
            Second(58),
            AskWith(
                functions::SET_DATE_AND_TIME,
                0x0200,
                &[1, 2, 0x12, 0x60],
                Done(0x00FF),
            ),
            AskWith(
                functions::SET_DATE_AND_TIME,
                0x0200,
                &[1, 2, 0x24, 0x00],
                Done(0x00FF),
            ),
            AskWith(
                functions::SET_DATE_AND_TIME,
                0x0200,
                &[1, 2, 0x0A, 0x00],
                Done(0x00FF),
            ),
            Ask(functions::GET_DATE_AND_TIME, 0x0300, Done(0x58)),
            Places(0x0300, &[0x2C, 0x01, 0x23, 0x59]),
            AskWith(
                functions::SET_DATE_AND_TIME,
                0x0200,
                &[1, 2, 0x12, 0x34],
                Done(0),
            ),
            Ask(functions::GET_DATE_AND_TIME, 0x0300, Done(0)),
            Places(0x0300, &[0x01, 0x02, 0x12, 0x34]),
        ],
    )
}
