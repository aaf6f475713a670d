use bdb_format::Order;
use bdb_mkfile::Sections;

/// The base of a `load --onto`: the databases of a sound file, with their lists.
#[derive(Drop)]
pub struct Base {
    /// The file has a master: each of its databases has a name.
    pub master: bool,
    pub page_size: u32,
    pub order: Order,
    /// Its databases as sections, in the order of their names; their lines are 0.
    pub databases: Sections,
}
