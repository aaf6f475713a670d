/// How the data of a key stand on a page of a table.
#[derive(Clone, Copy)]
pub enum DataForm {
    /// One datum alone.
    One,
    /// Several, as a set on the page.
    Set,
    /// Several, in a tree of their own.
    Tree,
}
