// What earlier openings of a run left.
ghost use Rattle.std.specs.Prelude.{◌≡◌, ◌+◌, ◌++◌, ◌≤◌, ℕ, length, option_map, OnOk, vec_len, vec_capacity};
ghost use Rattle.ori_model.specs.Data.{entry_of, entries_of};
ghost use Rattle.ori_script.specs.Pasts.{nothing_earlier, earlier_of, HasRoom, HasPlace, with_feed, decided};
ghost use Rattle.ori_script.specs.Reports.{report_of, report_on};

use ori_bytes::{NoMemory, NumberList};
use ori_model::{Entry, EntryList, PlacedList, Report};
use std::alloc::Global;

/// The entries of earlier openings, with a mark for each; and those whose own write failed and whose fate an opening
/// has decided, each with the number of entries that there were then.
#[derive(Drop)]
pub struct Past {
    entries: Vec<Entry>,
    marks: Vec<u64>,
    failed: Vec<(u64, Entry)>,
}

// Moves items to the end of others, which have room for them.
fn move_all<T: Drop>(into: &mut Vec<T>, more: Vec<T>)
    requires { vec_len into.old + length more.items ≤ vec_capacity into.old }
    ensures items { into.new.items ≡ into.old.items ++ more.items }
    ensures capacity { vec_capacity into.new ≡ vec_capacity into.old }
{
    for item in more {
        into.push_reserved(item);
    }
}

impl Past {
    /// That of a run's first opening; takes no memory.
    pub fn new(alloc: Global) -> Past
        ensures nothing { earlier_of result ≡ nothing_earlier }
        ensures room { HasRoom result 0 }
    {
        Past {
            entries: Vec::new(alloc),
            marks: Vec::new(alloc),
            failed: Vec::new(alloc),
        }
    }

    /// The entries of earlier openings.
    pub fn entries(&self) -> &[Entry]
        ensures { entries_of result.now ≡ (earlier_of self.now).entries }
    {
        self.entries.as_slice()
    }

    /// Makes room for so many entries more, and for the fate of one. All is as before where there was no memory.
    pub fn make_room(&mut self, more: usize) -> Result<(), NoMemory>
        ensures same { earlier_of self.new ≡ earlier_of self.old }
        ensures stays { (n : ℕ) → HasRoom self.old n → HasRoom self.new n }
        ensures place_stays { HasPlace self.old → HasPlace self.new }
        ensures room { OnOk result (HasRoom self.new more) }
        ensures place { OnOk result (HasPlace self.new) }
    {
        self.entries.reserve(more)?;
        self.marks.reserve(more)?;
        self.failed.reserve(1)?;
        Ok(())
    }

    /// The entries of an opening and their marks join those of the earlier ones. There is room for them.
    pub fn take(&mut self, feed: EntryList, marks: NumberList)
        requires room { HasRoom self.old (length feed) }
        requires marks { length marks ≡ length feed }
        ensures joined { earlier_of self.new ≡ with_feed (earlier_of self.old) (entries_of feed) marks }
        ensures room { (n : ℕ) → HasRoom self.old (length feed + n) → HasRoom self.new n }
        ensures place { HasPlace self.old → HasPlace self.new }
    {
        move_all(&mut self.entries, feed.into_vec());
        move_all(&mut self.marks, marks.into_vec());
    }

    /// The fate of an entry in doubt is decided by an opening that ended at that moment: where it was found, its copy
    /// joins the entries. There is room for it.
    pub fn decide(&mut self, entry: Entry, copy: Entry, found: bool, opened: u64)
        requires room { HasRoom self.old 1 }
        requires place { HasPlace self.old }
        requires same { entry_of copy ≡ entry_of entry }
        ensures decided { earlier_of self.new ≡ decided (earlier_of self.old) (entry_of entry) found opened }
        ensures room { HasRoom self.new 0 }
    {
        let place = self.entries.len() as u64;
        self.failed.push_reserved((place, entry));
        if !found {
            return;
        }
        self.entries.push_reserved(copy);
        self.marks.push_reserved(opened);
    }

    /// The report of a run that has come to its end with this entry in doubt; takes no memory.
    pub fn report(self, was_empty: bool, doubt: Option<Entry>) -> Report
        ensures { report_of result ≡ report_on (earlier_of self) was_empty (option_map entry_of doubt) }
    {
        let Past {
            entries,
            marks,
            failed,
        } = self;
        Report {
            was_empty,
            history: EntryList::from_vec(entries),
            doubt,
            failed: PlacedList::from_vec(failed),
            marks: NumberList::from_vec(marks),
        }
    }
}
