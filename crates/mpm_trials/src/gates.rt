//! Where the gates of a segment are.
use mpm_gate::{Gate, gate_at, is_gate};

/// Whether the gate at an address of page 43h is this one, and there is one exactly where its place isn't 0.
fn is_at(inside: bool, address: u16, place: u8) -> bool {
    let known = match gate_at(inside, 0x43, address) {
        Some(Gate::End) => 3,
        Some(Gate::Call) => 6,
        Some(Gate::Return) => 9,
        None => 0,
    };
    known == place && is_gate(inside, 0x43, address) == (known != 0)
}

#[test]
fn gates_are_at_3_6_and_9_of_their_page(rt: HostRuntime) {
    assert!(rt; is_at(false, 0x4303, 3));
    assert!(rt; is_at(false, 0x4306, 6));
    assert!(rt; is_at(true, 0x4303, 3));
    assert!(rt; is_at(true, 0x4306, 6));
    assert!(rt; is_at(true, 0x4309, 9));
}

#[test]
fn a_procedure_has_the_third_gate_alone(rt: HostRuntime) {
    assert!(rt; is_at(false, 0x4309, 0));
}

#[test]
fn elsewhere_is_no_gate(rt: HostRuntime) {
    assert!(rt; is_at(true, 0x4300, 0));
    assert!(rt; is_at(true, 0x4304, 0));
    assert!(rt; is_at(true, 0x430C, 0));
    assert!(rt; is_at(true, 0x4203, 0));
    assert!(rt; is_at(true, 0x4406, 0));
    assert!(rt; is_at(true, 0x0009, 0));
}
