//! Where the items that are put into a run stand on their pages.
use bdb_survey::u16_at;
use bdb_text_format::{Order, PageRoom, PageType};

/// Where an item stands: on a page of pairs, or on one of values by themselves.
#[derive(Clone, Copy, Debug)]
pub(crate) struct ItemAt {
    pub(crate) page: u32,
    pub(crate) index: u32,
    pub(crate) paired: bool,
}

// A page whose items are put into a run.
#[derive(Clone, Copy, Debug)]
struct OnPage {
    number: u32,
    room: PageRoom,
}

impl OnPage {
    // No page yet.
    fn none() -> OnPage {
        OnPage {
            number: 0,
            room: PageRoom::new(0),
        }
    }

    // The room of a page of so many bytes.
    fn room(&mut self, number: u32, size: usize) -> &mut PageRoom {
        if self.number != number {
            self.number = number;
            self.room = PageRoom::new(size);
        }
        &mut self.room
    }
}

/// The pages whose items are put into a run: of pairs, and of values.
#[derive(Clone, Copy, Debug)]
pub(crate) struct OnPages {
    paired: OnPage,
    placed: OnPage,
}

impl OnPages {
    /// No pages yet.
    pub(crate) fn none() -> OnPages {
        OnPages {
            paired: OnPage::none(),
            placed: OnPage::none(),
        }
    }

    /// The room of the page of an item, which has so many bytes.
    pub(crate) fn room(&mut self, item: ItemAt, size: usize) -> &mut PageRoom {
        if item.paired {
            self.paired.room(item.page, size)
        } else {
            self.placed.room(item.page, size)
        }
    }
}

// How many bytes come before those of an item of a page of this type: of a hash the kind of the item alone, else a length, too.
fn head_of(page_type: u8) -> usize {
    match PageType::of(page_type) {
        PageType::Hash => 1,
        _ => 3,
    }
}

/// Where on its page the bytes of an item begin.
pub(crate) fn begin_of(page: &[u8], order: Order, index: u32) -> usize {
    let at = 26 + 2 * index as usize;
    if page.len() < at + 2 {
        return 0;
    }
    head_of(page[25]).saturating_add(usize::from(u16_at(page, at, order)))
}
