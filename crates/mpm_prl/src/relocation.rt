ghost use Rattle.std.specs.Prelude.{◌≡◌, ◌+◌, ◌*◌, ◌%◌, ◌≤◌, ◌<◌, length, if◌then◌else◌};
ghost use Rattle.mpm_prl.specs.Relocation.{is_marked, relocated};

/// Moves code to a page: adds the page, modulo 256, to each byte of code whose bit is 1. The bits stand eight to a byte,
/// the most significant first, and there is at least one for each byte of code.
pub fn patch(code: &mut [u8], bits: &[u8], page: u8)
    requires { length code.old ≤ 8 * length bits.now }
    ensures { code.new ≡ relocated code.old bits.now page }
{
    for place in 0..code.len() {
        code[place] = moved(code[place], has_bit(bits, place), page);
    }
}

/// A byte of code at a page: the page is added, modulo 256, where the byte is marked.
fn moved(byte: u8, marked: bool, page: u8) -> u8
    ensures { result ≡ (if marked then (byte + page) % 256 else byte) }
{
    if marked {
        byte.wrapping_add(page)
    } else {
        byte
    }
}

/// Whether the bit of the code byte at a place is 1.
fn has_bit(bits: &[u8], place: usize) -> bool
    requires { place < 8 * length bits.now }
    ensures { result ≡ is_marked bits.now place }
{
    let weight = 1u8 << (7 - place % 8);
    bits[place / 8] / weight % 2 == 1
}
