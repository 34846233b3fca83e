ghost use Rattle.std.specs.Prelude.{◌≡◌, ◌<◌, ◌^◌, ◌&&◌, is_some, if◌then◌else◌};
ghost use Rattle.mpm_base.specs.Calls.{answering};
ghost use Rattle.mpm_fcb.specs.Blocks.{block_of, bytes_of};
ghost use Rattle.mpm_directories.specs.Direct as spec;
ghost use Rattle.mpm_directories.specs.Direct.{where_changed};
ghost use Rattle.mpm_directories.specs.Places.{kind_at};

use crate::places::kind;
use mpm_base::{Call, Reply};
use mpm_blocks::parameter_block;
use mpm_fcb::ControlBlock;
use mpm_file_functions::{DirectFunction, Extended, Refusal};
use mpm_marks::Protected;
use mpm_mount::Mounted;

/// Where the disk parameter block lies, in the system's own memory.
const PARAMETERS: u16 = 0xFE80;

/// The bit of a drive, where a test is so.
fn bit_where(drive: u8, test: bool) -> u16
    requires { drive < 16 }
    ensures { result ≡ (if test then 2 ^ drive else 0) }
{
    if test { 1 << drive } else { 0 }
}

/// The mask of the drives that are mounted. (MP/M II Programmer's Guide, "Function 24: Return Login Vector".)
#[tactic(auto, using(crate::proofs::Masks::none_masked, crate::proofs::Masks::more_masked, crate::proofs::Masks::mask_fits), unfolding(crate::specs::Direct::mask_of))]
fn login_vector(mounted: &[Option<Mounted>]) -> u16
    ensures { result ≡ spec.mask_of (λ number. is_some (kind_at mounted.now number)) }
{
    let mut mask = 0;
    for drive in 0..16 {
        mask += bit_where(drive, kind(mounted, drive).is_some());
    }
    mask
}

/// The mask of the drives that are mounted and protected from writing. (MP/M II Programmer's Guide, "Function 29: Get Read/Only
/// Vector".)
#[tactic(auto, using(crate::proofs::Masks::none_masked, crate::proofs::Masks::more_masked, crate::proofs::Masks::mask_fits), unfolding(crate::specs::Direct::mask_of))]
fn read_only_vector(mounted: &[Option<Mounted>], protected: &Protected) -> u16
    ensures { result ≡ spec.mask_of (λ number. is_some (kind_at mounted.now number) && spec.is_protected protected.now number) }
{
    let mut mask = 0;
    for drive in 0..16 {
        mask += bit_where(
            drive,
            kind(mounted, drive).is_some() && protected.has(drive),
        );
    }
    mask
}

/// Refuses a call on a drive that isn't mounted.
fn refuse_unmounted(drive: u8, reply: &mut Reply) -> Option<Extended>
    ensures answer { reply.new ≡ (spec.not_mounted drive).answer }
    ensures extended { result ≡ (spec.not_mounted drive).extended }
{
    let answered = Refusal::NotMounted.answer();
    reply.answer(answered.value());
    answered.extended(drive)
}

/// Answers whether a drive is mounted. (MP/M II Programmer's Guide, "Function 14: Select Disk".)
fn select_disk(mounted: &[Option<Mounted>], call: &Call, reply: &mut Reply) -> Option<Extended>
    ensures answer { reply.new ≡ (spec.selected (kind_at mounted.now) call.now).answer }
    ensures extended { result ≡ (spec.selected (kind_at mounted.now) call.now).extended }
{
    let drive = (call.word % 256) as u8;
    if kind(mounted, drive).is_none() {
        return refuse_unmounted(drive, reply);
    }
    reply.answer(0);
    None
}

/// Tells the disk parameter block of a drive. (MP/M II Programmer's Guide, "Function 31: Get Address of Disk Parameters".)
fn tell_parameters(mounted: &[Option<Mounted>], drive: u8, reply: &mut Reply) -> Option<Extended>
    ensures answer { reply.new ≡ (spec.where_mounted drive (kind_at mounted.now drive) spec.parameters_told).answer }
    ensures extended { result ≡ (spec.where_mounted drive (kind_at mounted.now drive) spec.parameters_told).extended }
{
    match kind(mounted, drive) {
        Some(kind) => {
            reply.answer_with(PARAMETERS, PARAMETERS, &parameter_block(kind));
            None
        }
        None => refuse_unmounted(drive, reply),
    }
}

/// The bytes of a block whose sequential position has become its random record.
fn positioned(bytes: &[u8; 36]) -> [u8; 36]
    ensures { result ≡ bytes_of (spec.positioned (block_of bytes.now)) }
{
    let mut block = ControlBlock::read(bytes);
    block.set_random_record();
    block.write()
}

/// Answers 0, with a control block where it changes.
fn answer_block(old: &[u8; 36], new: [u8; 36], reply: &mut Reply)
    ensures { reply.new ≡ record (answering 0) { fcb = where_changed old.now new } }
{
    reply.answer(0);
    reply.fcb = new;
    reply.has_fcb = new != *old;
}

/// Does a function that no disk serves, by the directories of the drives, each in its place.
#[tactic(auto, unfolding(crate::specs::Direct::direct_by))]
pub fn do_directly(
    mounted: &[Option<Mounted>],
    protected: &Protected,
    function: DirectFunction,
    drive: u8,
    call: &Call,
    reply: &mut Reply,
) -> Option<Extended>
    ensures answer { reply.new ≡ (spec.direct_by (kind_at mounted.now) (spec.is_protected protected.now) drive call.now function).answer }
    ensures extended { result ≡ (spec.direct_by (kind_at mounted.now) (spec.is_protected protected.now) drive call.now function).extended }
{
    match function {
        DirectFunction::SelectDisk => return select_disk(mounted, call, reply),
        DirectFunction::LoginVector => reply.answer(login_vector(mounted)),
        DirectFunction::ReadOnlyVector => reply.answer(read_only_vector(mounted, protected)),
        DirectFunction::DiskParameters => return tell_parameters(mounted, drive, reply),
        DirectFunction::SetRandomRecord => {
            answer_block(&call.fcb, positioned(&call.fcb), reply);
        }
    }
    None
}
