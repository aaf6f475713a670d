/// A page all of whose bytes are 0. It isn't a free page.
#[derive(Clone, Copy, Debug, PartialEq, Eq)]
pub struct ZeroView;
