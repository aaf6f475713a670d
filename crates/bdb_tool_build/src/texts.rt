ghost use Rattle.std.specs.Prelude.{◌≡◌, IfOk, string_bytes};
ghost use Rattle.bdb_tool_build.specs.Lines.{error_line, image_too_large_line, reason_line, trial_text};
ghost use Rattle.bdb_model.specs.of_text_format.Terms.{kind_text};

use bdb_model::{Kind, TextFault};
use bdb_onto::LoadError;
use std::alloc::{AllocError, Global};

/// The line of a text's fault.
pub(crate) fn reason_line(alloc: Global, fault: TextFault) -> Result<String, AllocError>
    ensures { IfOk result (λ text. string_bytes text ≡ reason_line fault) }
{
    let line = fault.line;
    let code = fault.reason.code();
    let name = fault.reason.name();
    format!(in alloc; "line {line}: reason {code} {name}\n")
}

/// The line of a load error: the number of its line, its code and its name.
pub(crate) fn error_line(alloc: Global, error: LoadError) -> Result<String, AllocError>
    ensures { IfOk result (λ text. string_bytes text ≡ error_line error) }
{
    let line = error.line();
    let code = error.code();
    let name = error.name();
    format!(in alloc; "line {line}: load error {code} {name}\n")
}

/// The line that an image would be longer than this many bytes. An error means that memory ran out.
pub fn image_too_large_line(alloc: Global, limit: u32) -> Result<String, AllocError>
    ensures { IfOk result (λ text. string_bytes text ≡ image_too_large_line limit) }
{
    format!(in alloc; "image longer than {limit} bytes\n")
}

// The word for a kind of databases.
fn kind_name(kind: Kind) -> &'static str
    ensures { result.now ≡ kind_text kind }
{
    match kind {
        Kind::Btree => "btree",
        Kind::Recno => "recno",
        Kind::Hash => "hash",
        Kind::Queue => "queue",
    }
}

/// The two lines of a trial: how many pairs and pages there are, and the hash of the image.
pub(crate) fn trial_lines(
    alloc: Global,
    kind: Kind,
    count: u32,
    pages: usize,
    hash: u32,
) -> Result<String, AllocError>
    ensures { IfOk result (λ text. string_bytes text ≡ trial_text kind count pages hash) }
{
    let kind = kind_name(kind);
    format!(in alloc; "{kind}: {count} pairs, {pages} pages, sound\nhash5 {hash}\n")
}
