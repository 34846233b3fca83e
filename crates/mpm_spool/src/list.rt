ghost use Rattle.std.specs.Prelude.{◌≡◌, ◌≤◌, ◌<◌, ◌+◌, ◌-◌, List, [], ◌∷◌, ◌++◌, length, take, drop, true, if◌then◌else◌};
ghost use Rattle.std.specs.List.{position_or_len};
ghost use Rattle.mpm_names.specs.Readings.{IsBytes, IsNumber, Reads};
ghost use Rattle.mpm_spool.specs.Listing.{ListsFiles};
ghost use Rattle.mpm_spool.specs.SpoolLists.{is_comma, is_mark as is_mark_text, asks_deletion as asks, is_item as is_item_named, is_ambiguous as has_mark, item_named as named, item_of, parts_of, listed, list_of, list_with, no_item as item_of_nobody};
ghost use Rattle.mpm_spool.specs.declared.list.SpoolItem.{SpoolItem as Item};

use mpm_messages::{strip, text_of};
use mpm_names::{Parsed, parse_filename};

/// A file that is to be printed.
#[derive(Clone, Copy, Debug, PartialEq, Eq)]
pub struct SpoolItem {
    /// The drive, 1 to 16 for A to P, or 0 for the spooler's own, which is A.
    pub drive: u8,
    /// The name, eight bytes, and the type, three, in upper case and filled with spaces.
    pub name: [u8; 11],
    /// The password in upper case, filled with spaces, or zeros where there is none.
    pub password: [u8; 8],
    /// Whether the file is deleted once it is printed.
    pub delete: bool,
}

/// The files that a message names, 1 to 8: the first `count` of these.
#[derive(Clone, Copy, Debug, PartialEq, Eq)]
pub struct SpoolList {
    pub count: u8,
    pub items: [SpoolItem; 8],
}

/// A message that names no files to print.
#[derive(Clone, Copy, Debug, PartialEq, Eq)]
pub struct BadSpoolList;

/// Reads the files that a message of the spooler's queue names, up to 00h, CR or its end: 1 to 8 names parted by commas,
/// with spaces around all of them. A name is one as function 152 takes it, with neither `*` nor `?` in name and type; `[D]`
/// after it, in either case, asks for the file's deletion.
///
/// # Errors
/// Exactly where that form isn't met.
#[tactic(auto, unfolding(crate::specs::SpoolLists::list_of))]
pub fn read_list(text: &[u8; 128]) -> Result<SpoolList, BadSpoolList>
    ensures { ListsFiles (list_of text.now) result }
{
    read_items(strip(text_of(text)))
}

/// The items of a text, of at most 128 bytes.
fn read_items(text: &[u8]) -> Result<SpoolList, BadSpoolList>
    requires { length text.now ≤ 128 }
    ensures { ListsFiles (listed (parts_of text.now)) result }
{
    let mut list = no_files();
    let mut rest = text;
    while list.count < 8 {
        let comma = comma_place(rest);
        let item = read_item(&rest[..comma])?;
        push(&mut list, item);
        if comma == rest.len() {
            return Ok(list);
        }
        rest = after(rest, comma);
    }
    Err(BadSpoolList)
}

/// A list without files.
#[tactic(auto, unfolding(crate::specs::SpoolLists::list_with, mpm_base::specs::Lists::zeros))]
pub(crate) fn no_files() -> SpoolList
    ensures { result ≡ list_with [] }
{
    SpoolList {
        count: 0,
        items: [no_item(); 8],
    }
}

/// One more comes to a list of fewer than eight files.
fn push(list: &mut SpoolList, item: SpoolItem)
    requires { list.old.count < 8 }
    ensures list { (items : List Item) → list.old ≡ list_with items → list.new ≡ list_with (items ++ item ∷ []) }
    ensures count { list.new.count ≡ list.old.count + 1 }
{
    list.items[usize::from(list.count)] = item;
    list.count += 1;
}

/// No item.
#[tactic(auto, unfolding(mpm_base::specs::Lists::zeros))]
pub(crate) fn no_item() -> SpoolItem
    ensures { result ≡ item_of_nobody }
{
    SpoolItem {
        drive: 0,
        name: [0; 11],
        password: [0; 8],
        delete: false,
    }
}

/// The place of a text's first comma, or its length.
fn comma_place(text: &[u8]) -> usize
    ensures { IsNumber (position_or_len is_comma text.now) (length text.now) result }
{
    for (place, byte) in text.iter().enumerate() {
        if *byte == b',' {
            return place;
        }
    }
    text.len()
}

/// What stands after a place of a text.
fn after(text: &[u8], place: usize) -> &[u8]
    requires { place < length text.now }
    ensures { result.now ≡ drop (place + 1) text.now }
{
    &text[place + 1..]
}

/// The item that a text of at most 128 bytes is.
#[tactic(auto, unfolding(crate::specs::SpoolLists::item_of))]
fn read_item(text: &[u8]) -> Result<SpoolItem, BadSpoolList>
    requires { length text.now ≤ 128 }
    ensures { Reads (item_of text.now) result }
{
    let delete = asks_deletion(text);
    match parse_filename(name_part(text, delete)) {
        Ok(name) if is_item(&name) => Ok(item_named(delete, &name)),
        _ => Err(BadSpoolList),
    }
}

/// The item of a name.
fn item_named(delete: bool, name: &Parsed) -> SpoolItem
    ensures { result ≡ named delete name.now }
{
    SpoolItem {
        drive: name.drive,
        name: name.name,
        password: name.password,
        delete,
    }
}

/// Whether a name names one file, and goes on to the end of its text.
fn is_item(name: &Parsed) -> bool
    ensures { result ≡ is_item_named name.now }
{
    name.next.is_none() && !is_ambiguous(&name.name)
}

/// Whether a name or type has a `?`, which stands for `*` too.
#[tactic(auto, unfolding(crate::specs::SpoolLists::is_ambiguous))]
fn is_ambiguous(name: &[u8; 11]) -> bool
    ensures { result ≡ has_mark name.now }
{
    name.iter().any(|byte| *byte == b'?')
}

/// Whether a text ends in the mark that asks for deletion.
fn asks_deletion(text: &[u8]) -> bool
    ensures asks { result ≡ asks text.now }
    ensures three { result ≡ true → 3 ≤ length text.now }
{
    3 <= text.len() && is_mark(&text[text.len() - 3..])
}

/// A text without that mark.
fn name_part(text: &[u8], delete: bool) -> &[u8]
    requires { delete ≡ true → 3 ≤ length text.now }
    ensures { IsBytes (if delete then take (length text.now - 3) text.now else text.now) (length text.now) result.now }
{
    if delete {
        &text[..text.len() - 3]
    } else {
        text
    }
}

/// The mark that asks for a file's deletion, in either case.
fn is_mark(text: &[u8]) -> bool
    ensures { result ≡ is_mark_text text.now }
{
    text == b"[D]".as_slice() || text == b"[d]".as_slice()
}
