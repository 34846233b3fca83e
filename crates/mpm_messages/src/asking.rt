ghost use Rattle.std.specs.Prelude.{◌≡◌, ◌≤◌, length};
ghost use Rattle.mpm_base.specs.Calls.{asking};
ghost use Rattle.mpm_messages.specs.Asking.{asking_file};

use mpm_base::Call;

/// Makes a call, of bytes at most 4,096.
pub fn ask(call: &mut Call, function: u8, word: u16, bytes: &[u8])
    requires { length bytes.now ≤ 4096 }
    ensures { call.new ≡ asking function word bytes.now }
{
    call.begin(function, word, 0);
    call.append(bytes);
}

/// Makes a call on a file by its control block, of bytes at most 4,096.
pub fn ask_file(call: &mut Call, function: u8, fcb: [u8; 36], bytes: &[u8])
    requires { length bytes.now ≤ 4096 }
    ensures { call.new ≡ asking_file function fcb bytes.now }
{
    call.begin(function, 0, 0);
    call.set_control_block(fcb);
    call.append(bytes);
}
