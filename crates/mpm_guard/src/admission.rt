ghost use Rattle.std.specs.Prelude.{◌≡◌, ◌↔◌, IsTrue};
ghost use Rattle.mpm_guard.specs.Passwords.{is_admitted, is_label_admitted, has_password, MayPass, MayChange};

use crate::encoding::decode_password;
use mpm_dirent::{LabelEntry, XfcbEntry};

/// In the label's data byte: passwords hold.
const PASSWORDS: u8 = 0x80;

/// Whether a process may do with a file what its XFCB guards by the bits of `need`, under a label of the data byte `label`: by
/// the password that it gives, or by its default password. `need` is 80h for opening, 40h for writing, and FFh for what a file's
/// XFCB of any mode but 0 holds back: deleting, renaming, setting attributes, writing the XFCB. (MP/M II Programmer's Guide,
/// "File Passwords".)
#[tactic(auto, using(crate::proofs::PasswordLaws::passes, crate::proofs::PasswordLaws::is_let_in), unfolding(crate::specs::Passwords::is_admitted))]
pub fn admits(label: u8, xfcb: &XfcbEntry, need: u8, given: &[u8; 8], default: &[u8; 8]) -> bool
    ensures admitted { result ≡ is_admitted label xfcb.now need given.now default.now }
    ensures who { IsTrue result ↔ MayPass label xfcb.now need given.now default.now }
{
    if label & PASSWORDS == 0 || xfcb.mode & need == 0 {
        return true;
    }
    is_password(xfcb.decode, &xfcb.password, given, default)
}

/// Whether a process may change the directory's label: by its password, where its stored bytes aren't all zero. (MP/M II
/// Programmer's Guide, "Function 100: Set Directory Label".)
#[tactic(auto, using(crate::proofs::PasswordLaws::changes, crate::proofs::PasswordLaws::may_change), unfolding(crate::specs::Passwords::is_label_admitted))]
pub fn admits_label(label: &LabelEntry, given: &[u8; 8], default: &[u8; 8]) -> bool
    ensures admitted { result ≡ is_label_admitted label.now given.now default.now }
    ensures who { IsTrue result ↔ MayChange label.now given.now default.now }
{
    if label.password == [0; 8] {
        return true;
    }
    is_password(label.decode, &label.password, given, default)
}

/// Whether one of two passwords is the one that is kept.
fn is_password(decode: u8, stored: &[u8; 8], given: &[u8; 8], default: &[u8; 8]) -> bool
    ensures { result ≡ has_password decode stored.now given.now default.now }
{
    let password = decode_password(decode, stored);
    *given == password || *default == password
}
