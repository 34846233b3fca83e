ghost use Rattle.std.specs.Prelude.{◌≡◌, ◌≤◌, ◌<◌, ◌==◌, length};
ghost use Rattle.mpm_names.specs.Readings.{IsNumber};
ghost use Rattle.mpm_names.specs.Spellings.{star_of, kept_at, filled, full_name, kept_password};

use crate::characters::to_upper;

/// A name of at most 8 characters and a type of at most 3, as eleven bytes.
pub fn name_bytes(name: &[u8], kind: &[u8]) -> [u8; 11]
    ensures { result ≡ full_name name.now kind.now }
{
    let mut bytes = [0; 11];
    bytes[8..].copy_from_slice(&filled_to::<3>(kind, star(kind)));
    bytes[..8].copy_from_slice(&filled_to::<8>(name, star(name)));
    bytes
}

/// A password of at most 8 characters, as eight bytes.
pub fn password_bytes(password: &[u8]) -> [u8; 8]
    ensures { result ≡ kept_password password.now }
{
    if password.is_empty() {
        [0; 8]
    } else {
        filled_to(password, password.len())
    }
}

/// A field in its width: in upper case up to the star, `?` from it on; a field without a star ends in spaces.
#[tactic(auto, unfolding(crate::specs::Spellings::filled))]
fn filled_to<const N: usize>(field: &[u8], star: usize) -> [u8; N]
    requires { star ≤ length field.now }
    ensures { result ≡ filled N star field.now }
{
    let mut bytes = [0; N];
    for place in 0..N {
        bytes[place] = kept(field, star, place);
    }
    bytes
}

/// A byte of a field as it is kept.
#[tactic(auto, unfolding(crate::specs::Spellings::kept_at))]
fn kept(field: &[u8], star: usize, place: usize) -> u8
    requires { star ≤ length field.now }
    ensures { result ≡ kept_at field.now star place }
{
    if place < star {
        to_upper(field[place])
    } else if star == field.len() {
        b' '
    } else {
        b'?'
    }
}

/// The place of a field's `*`, or its length.
fn star(field: &[u8]) -> usize
    ensures { IsNumber (star_of field.now) (length field.now) result }
{
    for (place, byte) in field.iter().enumerate() {
        if *byte == b'*' {
            return place;
        }
    }
    field.len()
}
