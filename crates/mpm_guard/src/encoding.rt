ghost use Rattle.std.specs.Prelude.{◌≡◌, ◌≤◌, ◌%◌, length, map, sum, bit_xor};
ghost use Rattle.mpm_guard.specs.Passwords.{decode_byte, decoded, encoded};

/// How directories keep a password: the decode byte, and the stored bytes. (MP/M II Programmer's Guide, "Extended File Control
/// Blocks".)
#[tactic(auto, using(crate::proofs::PasswordLaws::decoded_back), unfolding(crate::specs::Passwords::decoded))]
pub fn encode(password: &[u8; 8]) -> (u8, [u8; 8])
    ensures decode { result.0 ≡ decode_byte password.now }
    ensures stored { result.1 ≡ encoded password.now }
    ensures back { decoded result.0 result.1 ≡ password.now }
{
    let decode = sum_of(password);
    // Reversing and XORing make the stored bytes of a password as they make the password of these.
    let stored = decode_password(decode, password);
    (decode, stored)
}

/// The password that a directory keeps by a decode byte and stored bytes.
#[tactic(auto, unfolding(crate::specs::Passwords::decoded))]
pub fn decode_password(decode: u8, stored: &[u8; 8]) -> [u8; 8]
    ensures { result ≡ decoded decode stored.now }
{
    let mut password = *stored;
    password.reverse();
    xor_each(&mut password, decode);
    password
}

/// The sum of a password's bytes, of which there are few, modulo 256.
fn sum_of(password: &[u8]) -> u8
    requires { length password.now ≤ 8 }
    ensures { result ≡ sum password.now % 256 }
{
    let total: u32 = password.iter().map(|byte| u32::from(*byte)).sum();
    (total % 256) as u8
}

/// XORs each byte with another.
fn xor_each(bytes: &mut [u8], with: u8)
    ensures { bytes.new ≡ map (λ byte. bit_xor byte with) bytes.old }
{
    for byte in bytes.iter_mut() {
        *byte ^= with;
    }
}
