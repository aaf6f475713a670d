/// Which rows of the fault table count.
#[derive(Clone, Copy)]
pub enum Rows {
    All,
    /// All but those of stage 8 that say in which order keys and data stand; of a master those too.
    AnyOrder,
}

/// Which databases of a file are asked for.
#[derive(Clone, Copy)]
pub enum Which {
    Each,
    Master,
    Others,
}
