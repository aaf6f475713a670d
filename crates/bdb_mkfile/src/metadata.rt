ghost use Rattle.std.specs.Prelude.{◌≡◌, ◌≤◌};
ghost use Rattle.bdb_mkfile.specs.FileSettings.{btree_flags, file_settings, flag, flags_of, recno_flags, tree_meta};

use bdb_io::{BtreeMeta, Kind, Settings, plain_settings};

/// The settings of a database in its own file: what belongs to other kinds is as a header without its keyword says.
pub fn file_settings(settings: &Settings) -> Settings
    ensures { result ≡ file_settings settings.now }
{
    let plain = plain_settings(settings.kind, settings.page_size, settings.order);
    match settings.kind {
        Kind::Btree => Settings {
            duplicates: settings.duplicates,
            sorted: settings.sorted,
            recnum: settings.recnum,
            minkey: settings.minkey,
            ..plain
        },
        Kind::Recno => Settings {
            renumber: settings.renumber,
            fixed: settings.fixed,
            re_len: settings.re_len,
            re_pad: settings.re_pad,
            ..plain
        },
        Kind::Hash => Settings {
            duplicates: settings.duplicates,
            sorted: settings.sorted,
            ffactor: settings.ffactor,
            ..plain
        },
        Kind::Queue => Settings {
            fixed: true,
            re_len: settings.re_len,
            re_pad: settings.re_pad,
            ..plain
        },
    }
}

// A flag, where it is set.
fn flag(is_set: bool, bit: u32) -> u32
    ensures flag { result ≡ flag is_set bit }
    ensures bound { result ≤ bit }
{
    if is_set { bit } else { 0 }
}

// The flags of a btree.
fn btree_flags(settings: &Settings) -> u32
    ensures { result ≡ btree_flags settings.now.duplicates settings.now.sorted settings.now.recnum }
{
    flag(settings.duplicates, BtreeMeta::DUPLICATES)
        + flag(settings.recnum, BtreeMeta::RECORD_NUMBERS)
        + flag(settings.sorted, BtreeMeta::SORTED)
}

// The flags of a recno.
fn recno_flags(settings: &Settings) -> u32
    ensures { result ≡ recno_flags settings.now.fixed settings.now.renumber }
{
    BtreeMeta::RECNO
        + flag(settings.fixed, BtreeMeta::FIXED)
        + flag(settings.renumber, BtreeMeta::RENUMBERS)
}

/// The metadata of a tree with these settings and this root.
pub fn tree_meta(settings: &Settings, root: u32) -> BtreeMeta
    ensures { result ≡ tree_meta settings.now root }
{
    let flags = match settings.kind {
        Kind::Btree => btree_flags(settings),
        Kind::Recno => recno_flags(settings),
        Kind::Hash | Kind::Queue => 0,
    };
    BtreeMeta {
        flags,
        minkey: settings.minkey,
        re_len: settings.re_len,
        re_pad: settings.re_pad,
        root,
        free: 0,
    }
}
