use crate::name::Name;
use bdb_homes::Meta;

/// A metadata page, and what it says.
#[derive(Drop)]
pub(crate) struct At {
    pub(crate) meta: u32,
    pub(crate) fields: Meta,
}

/// A database that is found: its name, its metadata page, and what that says.
#[derive(Drop)]
pub(crate) struct Place<'s> {
    pub(crate) name: Option<Name<'s>>,
    pub(crate) meta: u32,
    pub(crate) fields: Meta,
}
