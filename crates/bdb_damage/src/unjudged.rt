ghost use Rattle.std.specs.Prelude.{◌≡◌, ◌+◌, ◌<◌, ◌≤◌, MatchOption};
ghost use Rattle.bdb_apart.specs.of_rescue.Kept.{file_in};
ghost use Rattle.bdb_damage.specs.Pages.{is_queue_file};

use crate::rows::is_queue_file;
use bdb_apart::Salvaged;

/// The pages of a file that are left to be judged, from one on.
#[derive(Drop)]
pub(crate) struct Unjudged<'s, 'a> {
    pub(crate) salvaged: &'s Salvaged<'a>,
    /// Whether page 0 has the magic number of a queue.
    pub(crate) queue: bool,
    pub(crate) page: u32,
}

impl<'s, 'a> Unjudged<'s, 'a> {
    /// All pages.
    pub(crate) fn of(salvaged: &'s Salvaged<'a>) -> Unjudged<'s, 'a>
        ensures salvaged { result.salvaged.now ≡ salvaged.now }
        ensures queue { result.queue ≡ is_queue_file salvaged.now }
        ensures page { result.page ≡ 0 }
    {
        Unjudged {
            salvaged,
            queue: is_queue_file(salvaged),
            page: 0,
        }
    }

    /// The next page, if there is one.
    pub(crate) fn next_page(&mut self) -> Option<u32>
        ensures there { MatchOption result ((file_in self.old.salvaged.now).count ≤ self.old.page)
            (λ page. (page ≡ self.old.page) × (page < (file_in self.old.salvaged.now).count)) }
        ensures left { MatchOption result (self.new ≡ self.old)
            (λ page. self.new ≡ record { salvaged = self.old.salvaged; queue = self.old.queue; page = page + 1 }) }
    {
        let page = self.page;
        if page >= self.salvaged.pages().count() {
            return None;
        }
        self.page += 1;
        Some(page)
    }
}
