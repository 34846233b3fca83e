ghost use Rattle.std.specs.Prelude.{◌≡◌, ◌+◌, ◌*◌, is_some};
ghost use Rattle.mpm_banks.specs.Gates.{last_page as last_page_of, call_gate};
ghost use Rattle.mpm_gate.specs.Gates.{IsHome, gate_in};

use mpm_banks::{Banks, CALL_GATE, END_GATE, RETURN_GATE, last_page};
use mpm_base::Seg;

/// The gates of a segment, in its last page, where the kernel acts whatever bytes stand there.
pub enum Gate {
    /// Ends the process.
    End,
    /// Calls the kernel.
    Call,
    /// Ends the resident procedure that its process is in; for others it is no gate.
    Return,
}

/// The last page of a segment, in which its gates are.
pub fn page_of_gates(banks: &Banks, seg: Seg) -> u8
    requires { IsHome banks.now seg }
    ensures { result ≡ last_page_of banks.now seg }
{
    last_page(banks.spec(seg))
}

/// The address of the gate at which a process of a segment calls the kernel.
pub fn gate_of_calls(banks: &Banks, seg: Seg) -> u16
    requires { IsHome banks.now seg }
    ensures { result ≡ 256 * last_page_of banks.now seg + call_gate }
{
    u16::from_le_bytes([CALL_GATE, page_of_gates(banks, seg)])
}

/// The gate at an address, if any, for a process that is in a resident procedure (`inside`) or in none.
#[tactic(auto, unfolding(crate::specs::Gates::gate_in))]
pub fn gate_at(inside: bool, page: u8, address: u16) -> Option<Gate>
    ensures { result ≡ gate_in inside page address }
{
    if address == u16::from_le_bytes([CALL_GATE, page]) {
        Some(Gate::Call)
    } else if address == u16::from_le_bytes([END_GATE, page]) {
        Some(Gate::End)
    } else if inside && address == u16::from_le_bytes([RETURN_GATE, page]) {
        Some(Gate::Return)
    } else {
        None
    }
}

/// Whether there is a gate at an address, for a process that is in a resident procedure (`inside`) or in none.
#[inline]
#[tactic(auto, unfolding(crate::specs::Gates::gate_in))]
pub fn is_gate(inside: bool, page: u8, address: u16) -> bool
    ensures { result ≡ is_some (gate_in inside page address) }
{
    if address == u16::from_le_bytes([CALL_GATE, page]) {
        return true;
    }
    let [place, high] = address.to_le_bytes();
    high == page && (place == END_GATE || inside && place == RETURN_GATE)
}
