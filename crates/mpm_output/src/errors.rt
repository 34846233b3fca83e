ghost use Rattle.std.specs.Prelude.{◌≡◌};
ghost use Rattle.mpm_output.specs.Texts.{drive_letter as letter_of, error_text as text_of_error};

use arrayvec::ArrayVec;
use itoa::Buffer;

/// `Bdos error`, the code of an extended error in decimal, `on`, the letter of its drive and a colon, CR, LF. (MP/M II
/// Programmer's Guide, "BDOS Error Handling".)
#[tactic(auto, unfolding(crate::specs::Texts::error_text))]
pub fn error_text(code: u8, drive: u8) -> ArrayVec<u8, 48>
    ensures { result.items ≡ text_of_error code drive }
{
    let mut text = ArrayVec::new();
    text.try_extend_from_slice(b"Bdos error ").unwrap();
    let mut digits = Buffer::new();
    let digits = digits.format(u64::from(code)).as_bytes();
    text.try_extend_from_slice(digits).unwrap();
    text.try_extend_from_slice(b" on ").unwrap();
    text.try_extend_from_slice(&[drive_letter(drive), b':', b'\r', b'\n'])
        .unwrap();
    text
}

/// The letter of a drive, and for one that no drive can be a question mark.
fn drive_letter(drive: u8) -> u8
    ensures { result ≡ letter_of drive }
{
    if drive < 16 { b'A' + drive } else { b'?' }
}
