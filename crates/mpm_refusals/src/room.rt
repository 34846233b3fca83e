ghost use Rattle.std.specs.Prelude.{◌≡◌};
ghost use Rattle.mpm_dirent.specs.Names.{plain};
ghost use Rattle.mpm_mount.specs.Standing.{OnItsDrive};
ghost use Rattle.mpm_refusals.specs.Refusals as spec;

use mpm_fcb::ControlBlock;
use mpm_file_functions::FileFunction;
use mpm_mount::{Mounted, label, label_byte, xfcb};

/// In the label's data byte: files are stamped as they are made.
const MAKING: u8 = 0x10;

/// In the label's data byte: passwords hold.
const PASSWORDS: u8 = 0x80;

/// Whether a making makes an XFCB too, by the label's data byte. (MP/M II Programmer's Guide, "Function 22: Make File".)
pub fn makes_xfcb(label: u8, block: &ControlBlock) -> bool
    ensures { result ≡ spec.makes_xfcb label block.now }
{
    label & MAKING != 0 || (label & PASSWORDS != 0 && block.has_f6())
}

/// Whether a user's file has no XFCB.
fn lacks_xfcb(mounted: &Mounted, user: u8, name: &[u8; 11]) -> bool
    ensures { OnItsDrive mounted.now (λ drive. result ≡ spec.lacks_xfcb drive (record { user = user; name = plain name.now })) }
{
    xfcb(mounted, user, name).is_none()
}

/// Whether there is no label.
fn lacks_label(mounted: &Mounted) -> bool
    ensures { OnItsDrive mounted.now (λ drive. result ≡ spec.lacks_label drive) }
{
    label(mounted).is_none()
}

/// How many directory entries a call needs, by whether it makes an XFCB too, and by what isn't there.
#[tactic(auto, unfolding(crate::specs::Refusals::needed_by))]
fn needed_by(function: FileFunction, makes: bool, no_xfcb: bool, no_label: bool) -> u16
    ensures { result ≡ spec.needed_by function makes no_xfcb no_label }
{
    match function {
        FileFunction::MakeFile => 1 + u16::from(makes && no_xfcb),
        FileFunction::SetLabel => u16::from(no_label),
        _ => u16::from(no_xfcb),
    }
}

/// How many directory entries a call needs.
fn entries_needed(mounted: &Mounted, user: u8, block: &ControlBlock, function: FileFunction) -> u16
    ensures { OnItsDrive mounted.now (λ drive. result ≡ spec.entries_needed drive (record { user = user; name = plain block.now.name }) block.now function) }
{
    needed_by(
        function,
        makes_xfcb(label_byte(mounted), block),
        lacks_xfcb(mounted, user, &block.name),
        lacks_label(mounted),
    )
}

/// Whether fewer directory entries are free than a call needs.
pub(crate) fn is_directory_full(
    mounted: &Mounted,
    user: u8,
    block: &ControlBlock,
    function: FileFunction,
) -> bool
    ensures { OnItsDrive mounted.now (λ drive. result ≡ spec.is_directory_full drive (record { user = user; name = plain block.now.name }) block.now function) }
{
    mounted.free_entries() < entries_needed(mounted, user, block, function)
}
