//! Why a dump text isn't read. Source: docs/FORMAT.md, "Reasons".
ghost use Rattle.std.specs.Prelude.{◌≡◌};
ghost use Rattle.bdb_text_format.specs.ReasonTable.{reason_code, reason_name};

/// Why a line of a dump text isn't read.
#[derive(Clone, Copy, Debug, PartialEq, Eq)]
pub enum TextReason {
    /// The first line of a section doesn't begin with `VERSION=`, or the text has no lines.
    NoVersion,
    /// The first line of a section begins with `VERSION=`, and isn't `VERSION=3`.
    Version,
    /// A header line has no keyword of the table.
    UnknownKeyword,
    /// The value of a header line isn't one that its keyword takes.
    BadValue,
    /// The keyword of a header line stood in the header before.
    RepeatedKeyword,
    /// A header ends without `type`.
    NoType,
    /// The value of a header line isn't supported.
    Unsupported,
    /// A data line doesn't begin with a space.
    NoSpace,
    /// Behind its space a data line has no spelling by digits.
    BadDigit,
    /// Behind its space a data line has no printed spelling.
    BadEscape,
    /// A section ends after a key without its datum.
    KeyWithoutData,
    /// A key isn't the number of a record.
    BadNumber,
    /// The text ends within a section.
    NoEnd,
    /// One of several sections has no name.
    NameMissing,
    /// An earlier section has the name.
    NameTwice,
    /// What a header says is in conflict.
    Conflict,
}

/// What the table of reasons says of one.
#[derive(Clone, Copy)]
struct ReasonEntry {
    code: u8,
    name: &'static str,
}

fn row(code: u8, name: &'static str) -> ReasonEntry
    ensures code { result.code ≡ code }
    ensures name { result.name.now ≡ name.now }
{
    ReasonEntry { code, name }
}

impl TextReason {
    fn entry(self) -> ReasonEntry
        ensures code { result.code ≡ reason_code self }
        ensures name { result.name.now ≡ reason_name self }
    {
        match self {
            TextReason::NoVersion => row(1, "NoVersion"),
            TextReason::Version => row(2, "Version"),
            TextReason::UnknownKeyword => row(3, "UnknownKeyword"),
            TextReason::BadValue => row(4, "BadValue"),
            TextReason::RepeatedKeyword => row(5, "RepeatedKeyword"),
            TextReason::NoType => row(6, "NoType"),
            TextReason::Unsupported => row(7, "Unsupported"),
            TextReason::NoSpace => row(8, "NoSpace"),
            TextReason::BadDigit => row(9, "BadDigit"),
            TextReason::BadEscape => row(10, "BadEscape"),
            TextReason::KeyWithoutData => row(11, "KeyWithoutData"),
            TextReason::BadNumber => row(12, "BadNumber"),
            TextReason::NoEnd => row(13, "NoEnd"),
            TextReason::NameMissing => row(14, "NameMissing"),
            TextReason::NameTwice => row(15, "NameTwice"),
            TextReason::Conflict => row(16, "Conflict"),
        }
    }

    /// The number of the reason (docs/FORMAT.md, "Reasons").
    pub fn code(self) -> u8
        ensures { result ≡ reason_code self }
    {
        self.entry().code
    }

    /// The name of the reason there.
    pub fn name(self) -> &'static str
        ensures { result.now ≡ reason_name self }
    {
        self.entry().name
    }
}

/// Why a dump text isn't read: the first line that has a reason, counted from 1, and the first of its reasons.
#[derive(Clone, Copy, Debug, PartialEq, Eq)]
pub struct TextFault {
    pub line: u64,
    pub reason: TextReason,
}
