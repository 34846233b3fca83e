ghost use Rattle.std.specs.Prelude.{◌≡◌};
ghost use Rattle.mpm_file_entries.specs.Protections as spec;

use mpm_dirent::{LabelEntry, XfcbEntry};
use mpm_fcb::ControlBlock;
use mpm_guard::encode;
use std::marker::Model;

/// What an XFCB or the directory label keeps. (MP/M II Programmer's Guide, "Extended File Control Blocks", "Directory Labels".)
#[derive(Drop)]
pub struct StoredProtection {
    /// An XFCB's mode, or the label's data byte.
    mode: u8,
    decode: u8,
    password: [u8; 8],
    first: [u8; 4],
    second: [u8; 4],
}

impl Model for StoredProtection {
    ghost use Rattle.mpm_mount.specs.Drives as drives;

    ghost Value = { drives.Protection };

    ghost view = { λ p. record { mode = p.mode; decode = p.decode; password = p.password; first = p.first; second = p.second } };
}

impl StoredProtection {
    /// Without mode, password and stamps.
    #[tactic(auto, unfolding(mpm_base::specs::Lists::zeros))]
    pub fn none() -> StoredProtection
        ensures { result ≡ spec.no_protection }
    {
        StoredProtection {
            mode: 0,
            decode: 0,
            password: [0; 8],
            first: [0; 4],
            second: [0; 4],
        }
    }

    /// That of an XFCB.
    pub fn of_xfcb(xfcb: &XfcbEntry) -> StoredProtection
        ensures { result ≡ record { mode = xfcb.now.mode; decode = xfcb.now.decode; password = xfcb.now.password; first = xfcb.now.first; second = xfcb.now.second } }
    {
        StoredProtection {
            mode: xfcb.mode,
            decode: xfcb.decode,
            password: xfcb.password,
            first: xfcb.first,
            second: xfcb.second,
        }
    }

    /// That of the label.
    pub fn of_label(label: &LabelEntry) -> StoredProtection
        ensures { result ≡ record { mode = label.now.mode; decode = label.now.decode; password = label.now.password; first = label.now.first; second = label.now.second } }
    {
        StoredProtection {
            mode: label.mode,
            decode: label.decode,
            password: label.password,
            first: label.first,
            second: label.second,
        }
    }

    /// Sets the mode.
    fn set_mode(&mut self, mode: u8)
        ensures { self.new ≡ record self.old { mode = mode } }
    {
        self.mode = mode;
    }

    /// Sets the password.
    fn set_password(&mut self, password: &[u8; 8])
        ensures { self.new ≡ spec.with_password password.now self.old }
    {
        let (decode, stored) = encode(password);
        self.decode = decode;
        self.password = stored;
    }

    /// The XFCB of a file that is made: mode and password where they are given. (MP/M II Programmer's Guide, "Function 22: Make
    /// File".)
    pub fn given(gives: bool, mode: u8, password: &[u8; 8]) -> StoredProtection
        ensures { result ≡ spec.given_xfcb gives mode password.now }
    {
        let mut xfcb = StoredProtection::none();
        if gives {
            xfcb.set_mode(mode);
            xfcb.set_password(password);
        }
        xfcb
    }

    /// Sets the first stamp where it is asked for.
    pub fn stamp_where(&mut self, asks: bool, moment: [u8; 4])
        ensures { self.new ≡ spec.with_first_stamp asks moment self.old }
    {
        if asks {
            self.first = moment;
        }
    }

    /// Sets another password where the byte that a call gives as mode or data byte asks for it.
    fn renew_password(&mut self, asked: u8, password: &[u8; 8])
        ensures { self.new ≡ spec.with_new_password asked password.now self.old }
    {
        if asked & 0x01 != 0 {
            self.set_password(password);
        }
    }

    /// Changes the label. (MP/M II Programmer's Guide, "Function 100: Set Directory Label".)
    pub fn change_label(&mut self, asked: u8, password: &[u8; 8])
        ensures { self.new ≡ spec.label_put asked password.now self.old }
    {
        self.renew_password(asked, password);
        self.set_mode(asked | 0x01);
    }

    /// Changes an XFCB. (MP/M II Programmer's Guide, "Function 103: Write File XFCB".)
    pub fn change_xfcb(&mut self, asked: u8, password: &[u8; 8])
        ensures { self.new ≡ spec.xfcb_put asked password.now self.old }
    {
        self.renew_password(asked, password);
        self.set_mode(asked & 0xE0);
    }

    /// The bytes that a job has of it.
    pub fn bytes(&self) -> [u8; 18]
        ensures { result ≡ spec.protection_bytes self.now }
    {
        let mut bytes = [0; 18];
        bytes[14..].copy_from_slice(&self.second);
        bytes[10..14].copy_from_slice(&self.first);
        bytes[2..10].copy_from_slice(&self.password);
        bytes[1] = self.decode;
        bytes[0] = self.mode;
        bytes
    }

    /// Puts its mode and its stamps into a block. (MP/M II Programmer's Guide, "Function 102: Read File XFCB".)
    pub fn tell(&self, block: &mut ControlBlock)
        ensures { block.new ≡ spec.told_xfcb self.now block.old }
    {
        block.tell_xfcb(self.mode, &self.first, &self.second);
    }
}
