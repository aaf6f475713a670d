// Laws of the references of a file, the roles of its pages, and its verdict.
ghost use Rattle.bdb_format.specs.Verdict.{EachPageHasOneRole, FirstIsLeast, RolesExcludeEachOther, SoundWhereNoRowHolds};

/// A file is sound exactly where no row of the fault table holds.
pub fn sound_where_no_row_holds()
    ensures { SoundWhereNoRowHolds }
{}

/// Where a file isn't sound, its first fault is the least page and code of the first stage in which a row
/// holds.
pub fn first_is_least()
    ensures { FirstIsLeast }
{}

/// A page is no two of an anchor, a reserve and a page with an owner.
pub fn roles_exclude_each_other()
    ensures { RolesExcludeEachOther }
{}

/// Ownership and reach have no fault exactly where each page has a role and reaches.
pub fn each_page_has_one_role()
    ensures { EachPageHasOneRole }
{}
