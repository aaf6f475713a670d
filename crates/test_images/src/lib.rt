//! For tests: images that are written a field a line, what a check of contents asks of a file, and which faults a list has.
#![tactic(auto)]

mod field;
mod naming;
mod opening;
mod sample;

pub use bdb_tree::{
    AllError, InternalItem, InternalKey, InternalView, LeafItem, NamedList, PageView, Separate,
    check_trees, compare, descend_by, first_leaf, leaves, leaves_below, next_level, tree_faults,
};
pub use field::{Field, write};
pub use naming::{has_rows, is_list_of};
pub use opening::{btree_of, has_sound_trees, is_keyed, is_recno};
pub use sample::Sample;
