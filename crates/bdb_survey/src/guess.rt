use bdb_law_sums::Order;

/// How an image is read: the order of its bytes, and the number of bytes of a page.
#[derive(Clone, Copy, Debug, PartialEq, Eq)]
pub struct Guess {
    pub order: Order,
    pub page_size: u32,
}
