ghost use Rattle.std.specs.Prelude.{◌≡◌, ◌≢◌, ◌<◌, ◌==◌, false, Some, None, IsSome, IfSome, map, position, length, slice_set, is_none};
ghost use Rattle.mpm_opens.specs.Kinds.{is_among};
ghost use Rattle.mpm_opens.specs.Items.{has_item, has_item_of, is_named, file_where, excludes, is_of, is_counted_out, is_given_back, left_in};

use crate::kinds::{FileKey, FileSet, Item, Mode, OpenRefused, is_process};
use crate::limits::{ITEMS, ITEMS_OF_PROCESS, OPENINGS};
use mpm_base::Pid;
use std::marker::Model;

/// The places of items.
#[derive(Drop)]
pub(crate) struct Items {
    places: [Option<Item>; ITEMS],
}

impl Model for Items {
    ghost use Rattle.std.specs.Prelude.{◌≡◌, List, Option, length};
    ghost use Rattle.mpm_opens.specs.declared.kinds.Item.{Item};
    ghost use Rattle.mpm_opens.specs.declared.limits.TheConstants.{ITEMS};

    ghost Value = { List (Option Item) };

    ghost view = { λ i. i.places };

    ghost invariant = { λ i. length i.places ≡ ITEMS };
}

impl Items {
    ghost use Rattle.mpm_opens.specs.declared.limits.TheConstants.{ITEMS, OPENINGS};
    ghost use Rattle.mpm_opens.specs.Items.{no_items, place_at, item_at, number_of, is_of, file_where, file_named, have_others, have_others_on, is_excluded, items_of, has_counted_out, are_full, first_free, with_changed, opened_again, closed_once, that_wrote, refusal_of, opened, opened_number, items_added, add_answer, items_without};

    /// No items.
    #[tactic(auto, unfolding(crate::specs::Items::no_items))]
    pub(crate) fn new() -> Items
        ensures { result ≡ no_items }
    {
        Items {
            places: [None; ITEMS],
        }
    }

    /// The item of a number.
    pub(crate) fn get(&self, number: u8) -> Item
        requires { IsSome (place_at self.now number) }
        ensures item { result ≡ item_at self.now number }
        ensures within { number < ITEMS }
    {
        match self.places[usize::from(number)] {
            Some(item) => item,
            None => unreachable!(),
        }
    }

    /// Puts an item at a place.
    fn set(&mut self, number: u8, item: Item)
        requires { number < ITEMS }
        ensures { self.new ≡ slice_set self.old number (Some item) }
    {
        self.places[usize::from(number)] = Some(item);
    }

    /// An item was opened once more.
    fn open_again(&mut self, number: u8)
        requires live { IsSome (place_at self.old number) }
        requires few { (item_at self.old number).count ≢ OPENINGS }
        ensures { self.new ≡ with_changed opened_again self.old number }
    {
        let item = self.get(number);
        self.set(
            number,
            Item {
                count: item.count + 1,
                ..item
            },
        );
    }

    /// An item was closed once.
    pub(crate) fn close_once(&mut self, number: u8)
        requires live { IsSome (place_at self.old number) }
        requires again { 1 < (item_at self.old number).count }
        ensures { self.new ≡ with_changed closed_once self.old number }
    {
        let item = self.get(number);
        self.set(
            number,
            Item {
                count: item.count - 1,
                ..item
            },
        );
    }

    /// A record was written by way of an item.
    pub(crate) fn note_written(&mut self, number: u8)
        requires { IsSome (place_at self.old number) }
        ensures { self.new ≡ with_changed that_wrote self.old number }
    {
        let item = self.get(number);
        self.set(
            number,
            Item {
                has_written: true,
                ..item
            },
        );
    }

    /// Opens a file for a process, unless that is refused, once more or by a new item, and answers the item's number.
    #[tactic(auto, unfolding(crate::specs::Items::items_added, crate::specs::Items::add_answer))]
    pub(crate) fn add(&mut self, p: Pid, file: FileKey, mode: Mode) -> Result<u8, OpenRefused>
        ensures items { self.new ≡ items_added self.old p file mode }
        ensures answer { result ≡ add_answer self.old p file mode }
    {
        match self.refusal(p, &file, mode) {
            Some(refusal) => Err(refusal),
            None => Ok(self.open(p, file, mode)),
        }
    }

    /// Why a file isn't opened.
    #[tactic(auto, unfolding(crate::specs::Items::refusal_of))]
    pub(crate) fn refusal(&self, p: Pid, file: &FileKey, mode: Mode) -> Option<OpenRefused>
        ensures { result ≡ refusal_of self.now p file.now mode }
    {
        if self.exclude(p, file, mode) {
            return Some(OpenRefused::Incompatible);
        }
        if ITEMS_OF_PROCESS <= self.count_of(p) || self.is_counted_out(p, file) {
            return Some(OpenRefused::ProcessLimit);
        }
        if self.is_full() {
            return Some(OpenRefused::NoRoom);
        }
        None
    }

    /// Opens a file that may be.
    #[tactic(auto, unfolding(crate::specs::Items::opened, crate::specs::Items::opened_number))]
    fn open(&mut self, p: Pid, file: FileKey, mode: Mode) -> u8
        requires { refusal_of self.old p file mode ≡ None }
        ensures items { self.new ≡ opened self.old p file mode }
        ensures number { result ≡ opened_number self.old p file }
    {
        match self.number_of(p, &file) {
            Some(number) => {
                self.open_again(number);
                number
            }
            None => {
                let number = self.first_free();
                self.set(
                    number,
                    Item {
                        process: p,
                        file,
                        mode,
                        count: 1,
                        has_written: false,
                    },
                );
                number
            }
        }
    }

    /// The number of a process's item of a file.
    #[tactic(auto, unfolding(crate::specs::Items::number_of))]
    pub(crate) fn number_of(&self, p: Pid, file: &FileKey) -> Option<u8>
        ensures { result ≡ number_of self.now p file.now }
    {
        match first_at(&self.places, p, file) {
            Some(place) => Some(place as u8),
            None => None,
        }
    }

    /// The file of a process's item, by number, drive and name.
    #[tactic(auto, unfolding(crate::specs::Items::file_named))]
    pub(crate) fn named(&self, p: Pid, number: u8, drive: u8, name: &[u8; 11]) -> Option<FileKey>
        ensures { result ≡ file_named self.now p number drive name.now }
    {
        // Read before the early return, which then knows how many places there are.
        let places = &self.places;
        let place = usize::from(number);
        if ITEMS <= place {
            return None;
        }
        match &places[place] {
            Some(item) if item.is_named(p, drive, name) => Some(item.file),
            _ => None,
        }
    }

    /// The file of a process's item, by number.
    pub(crate) fn file(&self, p: Pid, number: u8) -> Option<FileKey>
        ensures file { result ≡ file_where (is_of p) (place_at self.now number) }
        ensures places { length self.now ≡ ITEMS }
    {
        // Read before the early return, which then knows how many places there are.
        let places = &self.places;
        let place = usize::from(number);
        if ITEMS <= place {
            return None;
        }
        match &places[place] {
            Some(item) if is_process(item.process, p) => Some(item.file),
            _ => None,
        }
    }

    /// The number of the first free place.
    #[tactic(auto, unfolding(crate::specs::Items::first_free, crate::specs::Items::are_full))]
    fn first_free(&self) -> u8
        requires { are_full self.now ≡ false }
        ensures number { result ≡ first_free self.now }
        ensures within { result < ITEMS }
    {
        match first_free(&self.places) {
            Some(place) => place as u8,
            None => unreachable!(),
        }
    }

    /// Whether no place is free.
    #[tactic(auto, unfolding(crate::specs::Items::are_full))]
    fn is_full(&self) -> bool
        ensures { result ≡ are_full self.now }
    {
        first_free(&self.places).is_none()
    }

    /// Whether another process has an item of a file.
    #[tactic(auto, unfolding(crate::specs::Items::have_others))]
    pub(crate) fn have_others(&self, p: Pid, file: &FileKey) -> bool
        ensures { result ≡ have_others self.now p file.now }
    {
        self.places.iter().any(
            |place| matches!(place, Some(item) if !is_process(item.process, p) && item.file.is_same(file)),
        )
    }

    /// Whether another process has an item on a drive.
    #[tactic(auto, unfolding(crate::specs::Items::have_others_on))]
    pub(crate) fn have_others_on(&self, p: Pid, drive: u8) -> bool
        ensures { result ≡ have_others_on self.now p drive }
    {
        self.places.iter().any(
            |place| matches!(place, Some(item) if !is_process(item.process, p) && item.file.drive == drive),
        )
    }

    /// Whether an item excludes a new one.
    #[tactic(auto, unfolding(crate::specs::Items::is_excluded))]
    fn exclude(&self, p: Pid, file: &FileKey, mode: Mode) -> bool
        ensures { result ≡ is_excluded self.now p file.now mode }
    {
        self.places.iter().any(
            |place| matches!(place, Some(item) if item.file.is_same(file) && !item.admits(p, mode)),
        )
    }

    /// How many items a process has.
    #[tactic(auto, unfolding(crate::specs::Items::items_of))]
    fn count_of(&self, p: Pid) -> usize
        ensures { result ≡ items_of self.now p }
    {
        self.places
            .iter()
            .filter(|place| matches!(place, Some(item) if is_process(item.process, p)))
            .count()
    }

    /// Whether a process opened a file as often as it may.
    #[tactic(auto, unfolding(crate::specs::Items::has_counted_out))]
    fn is_counted_out(&self, p: Pid, file: &FileKey) -> bool
        ensures { result ≡ has_counted_out self.now p file.now }
    {
        self.places.iter().any(|place| {
            matches!(place, Some(item) if is_process(item.process, p)
                && item.file.is_same(file)
                && item.count == OPENINGS)
        })
    }

    /// A process's items of some files are given back.
    #[tactic(auto, unfolding(crate::specs::Items::items_without))]
    pub(crate) fn give_back(&mut self, p: Pid, files: &FileSet)
        ensures { self.new ≡ items_without self.old p (is_among files.now) }
    {
        give_back_each(&mut self.places, p, files);
    }
}

/// The first place at which a process's item of a file stands.
fn first_at(places: &[Option<Item>], p: Pid, file: &FileKey) -> Option<usize>
    ensures value { result ≡ position (has_item_of p file.now) places.now }
    ensures within { IfSome result (λ place. place < length places.now) }
{
    places.iter().position(
        |place| matches!(place, Some(item) if is_process(item.process, p) && item.file.is_same(file)),
    )
}

/// The first place that is free.
fn first_free(places: &[Option<Item>]) -> Option<usize>
    ensures value { result ≡ position is_none places.now }
    ensures within { IfSome result (λ place. place < length places.now) }
{
    places.iter().position(|place| place.is_none())
}

/// Whether the item at a place is a process's of some files.
fn is_given_back(place: &Option<Item>, p: Pid, files: &FileSet) -> bool
    ensures { result ≡ has_item (is_given_back p (is_among files.now)) place.now }
{
    match place {
        Some(item) => is_process(item.process, p) && files.has(&item.file),
        None => false,
    }
}

/// Gives back each of a process's items of some files.
fn give_back_each(places: &mut [Option<Item>], p: Pid, files: &FileSet)
    ensures { places.new ≡ map (left_in p (is_among files.now)) places.old }
{
    for place in places.iter_mut() {
        give_back_at(place, p, files);
    }
}

/// Gives back the item at a place, if it is a process's of some files.
fn give_back_at(place: &mut Option<Item>, p: Pid, files: &FileSet)
    ensures { place.new ≡ left_in p (is_among files.now) place.old }
{
    if is_given_back(place, p, files) {
        *place = None;
    }
}

impl Item {
    ghost use Rattle.mpm_opens.specs.Kinds.{is_same_mode, do_modes_go_together};
    ghost use Rattle.mpm_opens.specs.Items.{is_named};
    ghost use Rattle.std.specs.Prelude.{◌≡◌, ◌==◌, if◌then◌else◌};

    /// Whether it is a process's, and of a drive and a name.
    fn is_named(&self, p: Pid, drive: u8, name: &[u8; 11]) -> bool
        ensures { result ≡ is_named p drive name.now self.now }
    {
        is_process(self.process, p) && self.file.drive == drive && self.file.name == *name
    }

    /// Whether a process may open the item's file in a mode, beside it.
    fn admits(&self, p: Pid, mode: Mode) -> bool
        ensures { result ≡ (if self.now.process == p then is_same_mode self.now.mode mode else (do_modes_go_together self.now.mode mode)) }
    {
        if is_process(self.process, p) {
            self.mode.is_same(mode)
        } else {
            self.mode.goes_with(mode)
        }
    }
}
