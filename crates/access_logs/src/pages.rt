//! The pages of a program, by their first touch.
ghost use Rattle.std.specs.Prelude.{◌≡◌, ◌+◌, ◌<◌, ◌≤◌, ℕ, List, Option, [], length, Some, IfSome};
ghost use Rattle.access_logs.specs.declared.pages.TheConstants.{MAX_KEPT};
ghost use Rattle.access_logs.specs.Accesses.{IsWithin};
ghost use Rattle.access_logs.specs.Pages.{found_in, memory_word, with_page, pages_after};

use crate::access::Access;
use arrayvec::ArrayVec;
use flat_model::MAX_WORDS;
use std::marker::Model;

/// How many words a page has.
pub const PAGE_WORDS: u64 = 1024;

/// The most pages of memory.
pub const MAX_PAGES: u32 = MAX_WORDS / PAGE_WORDS as u32;

/// The most pages kept: an access without room may touch two more than memory has.
const MAX_KEPT: usize = MAX_PAGES as usize + 2;

#[derive(Clone, Copy)]
struct Placed {
    page: u64,
    place: usize,
}

// The pages so far, each once.
#[derive(Drop)]
pub(crate) struct Pages {
    touched: ArrayVec<u64, MAX_KEPT>,
    // The page touched last: mostly the next one too, and then no search is needed.
    recent: Option<Placed>,
}

impl Model for Pages {
    ghost Value = { List ℕ };

    ghost view = { λ p. p.touched.items };

    ghost invariant = { λ p. IfSome p.recent (λ r. (found_in p.touched.items r.page ≡ Some r.place) × (r.place < MAX_KEPT)) };
}

impl Pages {
    // No page yet.
    pub(crate) fn new() -> Pages
        ensures { result ≡ [] }
    {
        Pages {
            touched: ArrayVec::new(),
            recent: None,
        }
    }

    // How many there are.
    pub(crate) fn len(&self) -> usize
        ensures count { result ≡ length self.now }
        ensures few { result ≤ MAX_KEPT }
    {
        self.touched.len()
    }

    // The place of a page.
    fn find(&self, page: u64) -> Option<usize>
        ensures place { result ≡ found_in self.now page }
        ensures bound { IfSome result (λ place. place < MAX_KEPT) }
    {
        match self.recent {
            Some(recent) if recent.page == page => Some(recent.place),
            _ => self.touched.iter().position(|touched| *touched == page),
        }
    }

    // Adds a page, unless it is there.
    fn touch(&mut self, page: u64)
        requires { length self.old < MAX_KEPT }
        ensures pages { self.new ≡ with_page self.old page }
        ensures len { length self.new ≤ length self.old + 1 }
    {
        match self.find(page) {
            Some(place) => self.recent = Some(Placed { page, place }),
            None => {
                self.recent = None;
                self.touched.push(page);
            }
        }
    }

    // Touches the pages of an access.
    pub(crate) fn touch_all(&mut self, access: Access)
        requires within { IsWithin access }
        requires room { length self.old ≤ MAX_PAGES }
        ensures { self.new ≡ pages_after self.old access }
    {
        self.touch(access.first_word() / PAGE_WORDS);
        self.touch(access.last_word() / PAGE_WORDS);
    }

    // Where a touched page's word lies in memory.
    pub(crate) fn memory_word(&self, word: u64) -> u32
        ensures { result ≡ memory_word self.now word }
    {
        let place = self.find(word / PAGE_WORDS).unwrap_or(self.len());
        place as u32 * PAGE_WORDS as u32 + (word % PAGE_WORDS) as u32
    }
}
