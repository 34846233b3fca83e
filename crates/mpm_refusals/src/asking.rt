ghost use Rattle.std.specs.Prelude.{◌≡◌, unwrap_or};
ghost use Rattle.mpm_refusals.specs.Searches.{searched};
ghost use Rattle.mpm_refusals.specs.Subjects as spec;
ghost use Rattle.mpm_refusals.specs.Lookups.{ReadsBlock, AsksOf};

use crate::caller::{Caller, FileCall};
use crate::finding::found;
use crate::searches::{LastSearch, Searches};
use crate::subjects::{OpenItem, drive_named, item_number, open_item, owner};
use mpm_base::Call;
use mpm_fcb::ControlBlock;
use mpm_file_functions::FileFunction;
use mpm_marks::Protected;
use mpm_mount::Mounted;
use mpm_opens::Opens;

/// What a call names on a drive that is mounted, looked up once, by which its refusals are asked.
#[derive(Clone, Copy)]
pub struct Asked {
    /// Who calls.
    pub caller: Caller,
    /// What is called.
    pub function: FileFunction,
    /// The call's file control block.
    pub block: ControlBlock,
    /// The parameter, from DE.
    pub word: u16,
    /// The password that the call gives.
    pub given: [u8; 8],
    /// The drive that it names, from 0, or else its caller's.
    pub drive: u8,
    /// Whether that is protected from writing.
    pub is_protected: bool,
    /// The open file that it names, if its caller has that.
    pub item: Option<OpenItem>,
    /// The user whose file it is about.
    pub owner: u8,
    /// Whether its search finds an entry.
    pub is_found: bool,
}

/// The file control block in a call's 36 bytes.
fn read_block(bytes: &[u8; 36]) -> ControlBlock
    ensures { ReadsBlock bytes.now result }
{
    ControlBlock::read(bytes)
}

/// The file control block of a call.
pub fn block_of_call(call: &Call) -> ControlBlock
    ensures { ReadsBlock call.now.fcb result }
{
    read_block(&call.fcb)
}

/// The parameter of a call.
pub fn word_of_call(call: &Call) -> u16
    ensures { result ≡ call.now.word }
{
    call.word
}

/// The drive that a call names, from 0, or else the caller's.
pub fn drive_of_call(
    search: Option<LastSearch>,
    own: u8,
    word: u16,
    block: &ControlBlock,
    function: FileFunction,
) -> u8
    ensures { result ≡ unwrap_or (spec.drive_by (searched search) own word block.now function) own }
{
    match drive_named(search, own, word, block, function) {
        Some(drive) => drive,
        None => own,
    }
}

/// Looks up what a call names on a drive that is mounted.
pub fn ask(
    mounted: &Mounted,
    protected: &Protected,
    opens: &Opens,
    searches: &Searches,
    file_call: &FileCall<'_>,
) -> Asked
    ensures { AsksOf mounted.now protected.now opens.now searches.now file_call.now result }
{
    let FileCall {
        caller,
        function,
        call,
        ..
    } = *file_call;
    let block = block_of_call(call);
    let word = word_of_call(call);
    let given = call.eight(0);
    let search = searches.get(caller.process);
    let drive = drive_of_call(search, caller.drive, word, &block, function);
    let number = item_number(call.word(0), &block, function);
    let item = open_item(opens, caller.process, number, drive, &block.name);
    Asked {
        caller,
        function,
        block,
        word,
        given,
        drive,
        is_protected: protected.has(drive),
        item,
        owner: owner(mounted, caller.user, &block.name, item, function),
        is_found: found(mounted, caller.user, &block, search, function).is_some(),
    }
}
