ghost use Rattle.std.specs.Prelude.{◌≡◌};
ghost use Rattle.z80_decode.specs.Decoding.{tail_of};
ghost use Rattle.z80_exec.specs.Performing.{number};

use z80_decode::{Form, Instr, Tail};

/// Where what follows an opcode without prefix comes from: the instruction as it was decoded, or the bytes as they were
/// fetched.
pub trait Source {
    ghost use Rattle.z80_decode.specs.declared.forms.Form.{Form};
    ghost use Rattle.z80_decode.specs.declared.instr.Instr.{Instr};

    /// The instruction of a form.
    ghost instr: { Self → Form → Instr };

    /// The byte n.
    fn byte(&self, form: Form) -> u8
        requires { tail_of form ≡ Tail.Byte }
        ensures { result ≡ number (instr self.now form) };

    /// The word nn.
    fn word(&self, form: Form) -> u16
        requires { tail_of form ≡ Tail.Word }
        ensures { result ≡ (instr self.now form).operand };

    /// The displacement e.
    fn displacement(&self, form: Form) -> u8
        requires { tail_of form ≡ Tail.Displacement }
        ensures { result ≡ (instr self.now form).displacement };
}

impl Source for Instr {
    ghost instr = { λ instr _. instr };

    #[inline(always)]
    fn byte(&self, _form: Form) -> u8 {
        (self.operand % 256) as u8
    }

    #[inline(always)]
    fn word(&self, _form: Form) -> u16 {
        self.operand
    }

    #[inline(always)]
    fn displacement(&self, _form: Form) -> u8 {
        self.displacement
    }
}

/// An opcode, and the two bytes after it, whichever of them belong to its instruction. They are fetched together, so that one
/// look tells where all of them lie.
#[derive(Clone, Copy)]
pub struct Fetched {
    pub opcode: u8,
    pub first: u8,
    pub second: u8,
}

impl Source for Fetched {
    ghost use Rattle.z80_decode.specs.declared.instr.Page.TheVariants.{Main};
    ghost use Rattle.z80_decode.specs.Decoding.{tail_of, instr_with};

    ghost instr = { λ fetched form. instr_with (tail_of form) Main 1 fetched.opcode fetched.first fetched.second };

    #[inline(always)]
    fn byte(&self, _form: Form) -> u8 {
        self.first
    }

    #[inline(always)]
    fn word(&self, _form: Form) -> u16 {
        u16::from_le_bytes([self.first, self.second])
    }

    #[inline(always)]
    fn displacement(&self, _form: Form) -> u8 {
        self.first
    }
}
