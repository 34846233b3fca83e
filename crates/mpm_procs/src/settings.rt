ghost use Rattle.std.specs.Prelude.{◌≡◌, Some};

use crate::process::Process;
use mpm_base::FAILURE_CODE;

impl Process {
    ghost use Rattle.mpm_procs.specs.Settings.{user_value, with_user, multi_value, with_multi};

    /// The DMA address is set. (MP/M II Programmer's Guide, "Function 26: Set DMA Address".)
    pub fn set_dma(&mut self, address: u16)
        ensures { self.new ≡ record self.old { dma = address } }
    {
        self.dma = address;
    }

    /// The error mode is set. (MP/M II Programmer's Guide, "Function 45: Set BDOS Error Mode".)
    pub fn set_error_mode(&mut self, mode: u8)
        ensures { self.new ≡ record self.old { error_mode = mode } }
    {
        self.error_mode = mode;
    }

    /// The default password is set. (MP/M II Programmer's Guide, "Function 106: Set Default Password".)
    pub fn set_password(&mut self, password: [u8; 8])
        ensures { self.new ≡ record self.old { password = password } }
    {
        self.password = password;
    }

    /// It is in the resident procedure of a queue from now on, whose message it keeps.
    pub fn enter(&mut self, q: u8, message: u16)
        ensures { self.new ≡ record self.old { procedure = Some q; kept = message } }
    {
        self.procedure = Some(q);
        self.kept = message;
    }

    /// Answers the user, or sets it modulo 16 and answers 0. (MP/M II Programmer's Guide, "Function 32: Set/Get User Code".)
    pub fn ask_user(&mut self, byte: u8) -> u16
        ensures process { self.new ≡ with_user byte self.old }
        ensures value { result ≡ user_value byte self.old }
    {
        if byte == 0xFF {
            return u16::from(self.user);
        }
        self.user = byte % 16;
        0
    }

    /// Sets the multi-sector count, 1 to 16, and answers 0, or refuses it. (MP/M II Programmer's Guide, "Function 44: Set
    /// Multi-Sector Count".)
    pub fn set_multi(&mut self, count: u8) -> u16
        ensures process { self.new ≡ with_multi count self.old }
        ensures value { result ≡ multi_value count }
    {
        if count < 1 || 16 < count {
            return FAILURE_CODE;
        }
        self.multi = count;
        0
    }
}
