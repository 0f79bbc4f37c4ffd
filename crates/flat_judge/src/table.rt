//! What each tag is owed.
ghost use Rattle.std.specs.Prelude.{◌≡◌, ◌≤◌, length, slice_set};
ghost use Rattle.flat_model.specs.Flat.{with_due};
ghost use Rattle.flat_judge.specs.Table.{due_in, owed_by, tags_owed, owed_below, nth_tag};

use flat_model::Word;

/// Entries of a table.
pub const TAGS: usize = u16::MAX as usize + 1;

/// What a tag is owed.
#[repr(C)]
#[derive(Clone, Copy)]
pub struct Due {
    /// 0 for nothing.
    pub owed: u32,
    /// The owed word.
    pub word: Word,
}

/// How many tags are owed words, and the `n`th from 0, if any. `due` may have any length.
#[tactic(auto, unfolding(crate::specs::Table::tags_owed))]
pub fn flat_open(due: &[Due], n: u32, tag: &mut u16) -> u32
    ensures count { result ≡ length (tags_owed due.now) }
    ensures tag { tag.new ≡ nth_tag tag.old (tags_owed due.now) n }
{
    open_below(due, TAGS as u32, n, tag)
}

fn open_below(due: &[Due], tags: u32, n: u32, nth: &mut u16) -> u32
    requires { tags ≤ TAGS }
    ensures count { result ≡ length (owed_below due.now tags) }
    ensures tag { nth.new ≡ nth_tag nth.old (owed_below due.now tags) n }
{
    let mut open = 0;
    for number in 0..tags {
        let tag = number as u16;
        if due_word(due, tag).is_some() {
            if open == n {
                *nth = tag;
            }
            open += 1;
        }
    }
    open
}

pub(crate) fn due_word(due: &[Due], tag: u16) -> Option<Word>
    ensures { result ≡ due_in due.now tag }
{
    let entry = due.get(tag as usize)?;
    if entry.owed == 0 {
        None
    } else {
        Some(entry.word)
    }
}

pub(crate) fn set_due(due: &mut [Due], tag: u16, entry: Due)
    requires { length due.old ≡ TAGS }
    ensures says { due_in due.new ≡ with_due (due_in due.old) tag (owed_by entry) }
    ensures holds { due.new ≡ slice_set due.old tag entry }
{
    due[tag as usize] = entry;
}
