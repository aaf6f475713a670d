//! The rows of the fault table, an enum for each stage, and the table itself: the code and the name of each row, and the case by which a file
//! with it isn't supported, if it's such a case. Source: docs/FORMAT.md, "Faults".
ghost use Rattle.std.specs.Prelude.{◌≡◌, None, Some, ℕ};
ghost use Rattle.bdb_format.specs.FaultTable.{contents_names, file_names, form_names, master_names, ownership_names, reach_names, reference_names};
ghost use Rattle.bdb_format.specs.FaultTable.{fault_name, numbered_name, structure_names, unsupported_name};
ghost use Rattle.bdb_format.specs.HeadOf.{form_fault, head_fault};
ghost use Rattle.bdb_format.specs.Verdict.{judgement_of};
ghost use Rattle.bdb_format.specs.declared.kinds.Unsupported.{Unsupported as UnsupportedSeen};
ghost use Rattle.bdb_format.specs.Cases.{case_seen, judged_as};
ghost use Rattle.bdb_format.specs.FaultTable.{contents_row_code, fault_at, file_row_code, form_row_code, master_row_code, ownership_row_code, reach_row_code, reference_row_code, structure_row_code};
ghost use Rattle.bdb_format.specs.FaultTable.{row_code, row_stage};

use crate::{MetaFault, Named, Unsupported};

/// Stage 1, the file.
#[derive(Clone, Copy)]
pub enum FileRow {
    Short,
    Magic,
    Heap,
    Version,
    PageSize,
    LargePage,
    Encryption,
    Checksum,
    Partition,
    Ragged,
    LastPage,
    Tail,
}

/// Stage 2, the form of a page.
#[derive(Clone, Copy)]
pub enum FormRow {
    PageNumber,
    PageType,
    MetaMagic,
    Version,
    MetaPageSize,
    Encryption,
    Checksum,
    Partition,
    Compression,
    BtreeFlags,
    OwnHash,
    HashFlags,
    HashMasks,
    HashBuckets,
    Extent,
    QueueRecord,
    QueueFirst,
    WrappedQueue,
    IndexRoom,
    Level,
    EntryCount,
    ItemOffset,
    ItemType,
    ItemExtent,
    OverflowRoom,
}

/// Stage 3, references.
#[derive(Clone, Copy)]
pub enum ReferenceRow {
    OutOfRange,
    WrongKind,
    WrongLevel,
    WrongBack,
}

/// Stage 4, ownership.
#[derive(Clone, Copy)]
pub enum OwnershipRow {
    NoOwner,
    TooMany,
}

/// Stage 5, reach.
#[derive(Clone, Copy)]
pub enum ReachRow {
    Unreached,
}

/// Stage 6, chains and trees.
#[derive(Clone, Copy)]
pub enum StructureRow {
    ChainLength,
    LeafKind,
    LeafLink,
}

/// Stage 7, the master.
#[derive(Clone, Copy)]
pub enum MasterRow {
    Unnamed,
    EntrySize,
    EntryTarget,
    NameTwice,
    MetaTwice,
}

/// Stage 8, contents.
#[derive(Clone, Copy)]
pub enum ContentsRow {
    Duplicates,
    DuplicateKind,
    KeyOrder,
    Separator,
    DuplicateOrder,
    Count,
    RecordLength,
    Bucket,
    KeyTwice,
}

/// A row of any stage.
#[derive(Clone, Copy)]
pub enum Row {
    File(FileRow),
    Form(FormRow),
    Reference(ReferenceRow),
    Ownership(OwnershipRow),
    Reach(ReachRow),
    Structure(StructureRow),
    Master(MasterRow),
    Contents(ContentsRow),
}

impl Row {
    /// This row at a page.
    pub fn at(self, page: u32) -> Named
        ensures { result ≡ record { row = self; page = page } }
    {
        Named { row: self, page }
    }
}

/// What the table says of a row.
#[derive(Clone, Copy)]
pub struct RowEntry {
    pub code: u8,
    pub name: &'static str,
    pub case: Option<Unsupported>,
}

/// A fault.
fn fault(code: u8, name: &'static str) -> RowEntry
    ensures code { result.code ≡ code }
    ensures name { result.name.now ≡ name.now }
    ensures case { result.case ≡ None }
{
    RowEntry {
        code,
        name,
        case: None,
    }
}

/// A case that isn't supported.
fn left_out(code: u8, name: &'static str, case: Unsupported) -> RowEntry
    ensures code { result.code ≡ code }
    ensures name { result.name.now ≡ name.now }
    ensures case { result.case ≡ Some case }
{
    RowEntry {
        code,
        name,
        case: Some(case),
    }
}

impl RowEntry {
    /// What page 0 or a page is refused for by this row.
    fn fault(self) -> MetaFault
        ensures { result ≡ case_seen self.code self.case }
    {
        match self.case {
            Some(name) => MetaFault::Unsupported(name),
            None => MetaFault::Fault(self.code),
        }
    }
}

impl FileRow {
    /// What page 0 is refused for.
    pub fn fault(self) -> MetaFault
        ensures { result ≡ head_fault (file_row_code self) }
    {
        self.entry().fault()
    }

    /// Its entry in the fault table: its code, its name, and the case that isn't supported, where it's one.
    pub fn entry(self) -> RowEntry
        ensures code { result.code ≡ file_row_code self }
        ensures name { result.name.now ≡ numbered_name file_names (file_row_code self) }
        ensures case { case_seen (file_row_code self) result.case ≡ head_fault (file_row_code self) }
        ensures left_out { (name : UnsupportedSeen) → result.case ≡ Some name → result.name.now ≡ unsupported_name name }
    {
        match self {
            FileRow::Short => fault(1, "Short"),
            FileRow::Magic => fault(2, "Magic"),
            FileRow::Heap => left_out(3, "Heap", Unsupported::Heap),
            FileRow::Version => left_out(4, "Version", Unsupported::Version),
            FileRow::PageSize => fault(5, "PageSize"),
            FileRow::LargePage => left_out(6, "LargePage", Unsupported::LargePage),
            FileRow::Encryption => left_out(7, "Encryption", Unsupported::Encryption),
            FileRow::Checksum => left_out(8, "Checksum", Unsupported::Checksum),
            FileRow::Partition => left_out(9, "Partition", Unsupported::Partition),
            FileRow::Ragged => fault(10, "Ragged"),
            FileRow::LastPage => fault(11, "LastPage"),
            FileRow::Tail => fault(12, "Tail"),
        }
    }
}

impl FormRow {
    /// What a page is refused for.
    pub fn fault(self) -> MetaFault
        ensures { result ≡ form_fault (form_row_code self) }
    {
        self.entry().fault()
    }

    /// Its entry in the fault table: its code, its name, and the case that isn't supported, where it's one.
    pub fn entry(self) -> RowEntry
        ensures code { result.code ≡ form_row_code self }
        ensures name { result.name.now ≡ numbered_name form_names (form_row_code self) }
        ensures case { case_seen (form_row_code self) result.case ≡ form_fault (form_row_code self) }
        ensures left_out { (name : UnsupportedSeen) → result.case ≡ Some name → result.name.now ≡ unsupported_name name }
    {
        match self {
            FormRow::PageNumber => fault(1, "PageNumber"),
            FormRow::PageType => fault(2, "PageType"),
            FormRow::MetaMagic => fault(3, "MetaMagic"),
            FormRow::Version => left_out(4, "Version", Unsupported::Version),
            FormRow::MetaPageSize => fault(5, "MetaPageSize"),
            FormRow::Encryption => left_out(6, "Encryption", Unsupported::Encryption),
            FormRow::Checksum => left_out(7, "Checksum", Unsupported::Checksum),
            FormRow::Partition => left_out(8, "Partition", Unsupported::Partition),
            FormRow::Compression => left_out(9, "Compression", Unsupported::Compression),
            FormRow::BtreeFlags => fault(10, "BtreeFlags"),
            FormRow::OwnHash => left_out(11, "OwnHash", Unsupported::OwnHash),
            FormRow::HashFlags => fault(12, "HashFlags"),
            FormRow::HashMasks => fault(13, "HashMasks"),
            FormRow::HashBuckets => fault(14, "HashBuckets"),
            FormRow::Extent => left_out(15, "Extent", Unsupported::Extent),
            FormRow::QueueRecord => fault(16, "QueueRecord"),
            FormRow::QueueFirst => fault(17, "QueueFirst"),
            FormRow::WrappedQueue => left_out(18, "WrappedQueue", Unsupported::WrappedQueue),
            FormRow::IndexRoom => fault(19, "IndexRoom"),
            FormRow::Level => fault(20, "Level"),
            FormRow::EntryCount => fault(21, "EntryCount"),
            FormRow::ItemOffset => fault(22, "ItemOffset"),
            FormRow::ItemType => fault(23, "ItemType"),
            FormRow::ItemExtent => fault(24, "ItemExtent"),
            FormRow::OverflowRoom => fault(25, "OverflowRoom"),
        }
    }
}

impl ReferenceRow {
    /// Its entry in the fault table: its code, its name, and the case that isn't supported, where it's one.
    pub fn entry(self) -> RowEntry
        ensures code { result.code ≡ reference_row_code self }
        ensures name { result.name.now ≡ numbered_name reference_names (reference_row_code self) }
        ensures case { result.case ≡ None }
    {
        match self {
            ReferenceRow::OutOfRange => fault(1, "OutOfRange"),
            ReferenceRow::WrongKind => fault(2, "WrongKind"),
            ReferenceRow::WrongLevel => fault(3, "WrongLevel"),
            ReferenceRow::WrongBack => fault(4, "WrongBack"),
        }
    }
}

impl OwnershipRow {
    /// Its entry in the fault table: its code, its name, and the case that isn't supported, where it's one.
    pub fn entry(self) -> RowEntry
        ensures code { result.code ≡ ownership_row_code self }
        ensures name { result.name.now ≡ numbered_name ownership_names (ownership_row_code self) }
        ensures case { result.case ≡ None }
    {
        match self {
            OwnershipRow::NoOwner => fault(1, "NoOwner"),
            OwnershipRow::TooMany => fault(2, "TooMany"),
        }
    }
}

impl ReachRow {
    /// Its entry in the fault table: its code, its name, and the case that isn't supported, where it's one.
    pub fn entry(self) -> RowEntry
        ensures code { result.code ≡ reach_row_code self }
        ensures name { result.name.now ≡ numbered_name reach_names (reach_row_code self) }
        ensures case { result.case ≡ None }
    {
        match self {
            ReachRow::Unreached => fault(1, "Unreached"),
        }
    }
}

impl StructureRow {
    /// Its entry in the fault table: its code, its name, and the case that isn't supported, where it's one.
    pub fn entry(self) -> RowEntry
        ensures code { result.code ≡ structure_row_code self }
        ensures name { result.name.now ≡ numbered_name structure_names (structure_row_code self) }
        ensures case { result.case ≡ None }
    {
        match self {
            StructureRow::ChainLength => fault(1, "ChainLength"),
            StructureRow::LeafKind => fault(2, "LeafKind"),
            StructureRow::LeafLink => fault(3, "LeafLink"),
        }
    }
}

impl MasterRow {
    /// Its entry in the fault table: its code, its name, and the case that isn't supported, where it's one.
    pub fn entry(self) -> RowEntry
        ensures code { result.code ≡ master_row_code self }
        ensures name { result.name.now ≡ numbered_name master_names (master_row_code self) }
        ensures case { result.case ≡ None }
    {
        match self {
            MasterRow::Unnamed => fault(1, "Unnamed"),
            MasterRow::EntrySize => fault(2, "EntrySize"),
            MasterRow::EntryTarget => fault(3, "EntryTarget"),
            MasterRow::NameTwice => fault(4, "NameTwice"),
            MasterRow::MetaTwice => fault(5, "MetaTwice"),
        }
    }
}

impl ContentsRow {
    /// Its entry in the fault table: its code, its name, and the case that isn't supported, where it's one.
    pub fn entry(self) -> RowEntry
        ensures code { result.code ≡ contents_row_code self }
        ensures name { result.name.now ≡ numbered_name contents_names (contents_row_code self) }
        ensures case { result.case ≡ None }
    {
        match self {
            ContentsRow::Duplicates => fault(1, "Duplicates"),
            ContentsRow::DuplicateKind => fault(2, "DuplicateKind"),
            ContentsRow::KeyOrder => fault(3, "KeyOrder"),
            ContentsRow::Separator => fault(4, "Separator"),
            ContentsRow::DuplicateOrder => fault(5, "DuplicateOrder"),
            ContentsRow::Count => fault(6, "Count"),
            ContentsRow::RecordLength => fault(7, "RecordLength"),
            ContentsRow::Bucket => fault(8, "Bucket"),
            ContentsRow::KeyTwice => fault(9, "KeyTwice"),
        }
    }
}

impl Row {
    /// The number of its stage.
    pub fn stage(self) -> u8
        ensures { result ≡ row_stage self }
    {
        match self {
            Row::File(_) => 1,
            Row::Form(_) => 2,
            Row::Reference(_) => 3,
            Row::Ownership(_) => 4,
            Row::Reach(_) => 5,
            Row::Structure(_) => 6,
            Row::Master(_) => 7,
            Row::Contents(_) => 8,
        }
    }

    /// What the table says of it.
    #[tactic(auto, unfolding(crate::specs::FaultTable::fault_name))]
    pub fn entry(self) -> RowEntry
        ensures code { result.code ≡ row_code self }
        ensures name { result.name.now ≡ fault_name (row_stage self) (row_code self) }
        ensures case { (page : ℕ) → judged_as (fault_at self page) result.case ≡ judgement_of (fault_at self page) }
        ensures left_out { (name : UnsupportedSeen) → result.case ≡ Some name → result.name.now ≡ unsupported_name name }
    {
        match self {
            Row::File(row) => row.entry(),
            Row::Form(row) => row.entry(),
            Row::Reference(row) => row.entry(),
            Row::Ownership(row) => row.entry(),
            Row::Reach(row) => row.entry(),
            Row::Structure(row) => row.entry(),
            Row::Master(row) => row.entry(),
            Row::Contents(row) => row.entry(),
        }
    }
}
