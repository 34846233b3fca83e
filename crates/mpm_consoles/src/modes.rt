ghost use Rattle.std.specs.Prelude.{◌≡◌};
ghost use Rattle.mpm_consoles.specs.Modes.{is_cooked as makes_cooked, is_raw as makes_raw, does_echo, writes as does_write};

use mpm_base::{Call, functions};

/// The parameter by which function 6 takes a key, where one is there.
pub const POLL_KEY: u8 = 0xFF;

/// The parameter by which function 6 tells whether a key is there.
pub const TELL_STATUS: u8 = 0xFE;

/// The parameter by which function 6 takes a key, and waits for one. Each byte below it is written.
pub const AWAIT_KEY: u8 = 0xFD;

/// Whether a function makes its console not raw.
pub fn is_cooked(function: u8) -> bool
    ensures { result ≡ makes_cooked function }
{
    matches!(
        function,
        functions::CONSOLE_INPUT
            | functions::CONSOLE_OUTPUT
            | functions::PRINT_STRING
            | functions::READ_CONSOLE_BUFFER
    )
}

/// Whether a function makes its console raw.
pub fn is_raw(function: u8) -> bool
    ensures { result ≡ makes_raw function }
{
    matches!(
        function,
        functions::RAW_CONSOLE_INPUT | functions::RAW_CONSOLE_OUTPUT | functions::DIRECT_CONSOLE_IO
    )
}

/// Whether a function echoes the keys that it takes.
pub fn echoes(function: u8) -> bool
    ensures { result ≡ does_echo function }
{
    matches!(
        function,
        functions::CONSOLE_INPUT | functions::READ_CONSOLE_BUFFER
    )
}

/// Whether a call writes to its console, and so waits while output is stopped.
#[tactic(auto, unfolding(crate::specs::Modes::writes))]
pub fn writes(call: &Call) -> bool
    ensures { result ≡ does_write call.now }
{
    match call.function {
        functions::CONSOLE_OUTPUT | functions::RAW_CONSOLE_OUTPUT | functions::PRINT_STRING => true,
        functions::DIRECT_CONSOLE_IO => call.word % 256 < u16::from(AWAIT_KEY),
        _ => false,
    }
}
