ghost use Rattle.std.specs.Prelude.{◌≡◌};
ghost use Rattle.bdb_overflow.specs.of_image.Linked.{HasMetadata};
ghost use Rattle.bdb_overflow.specs.of_format.Terms.{QueueFields, file_of, queue_list};

use crate::Scan;
use bdb_overflow::{Linked, QueueMeta};

/// The live records of the queue with this metadata, in order. It goes over the pages of the file, and takes
/// no memory.
pub fn scan<'a>(linked: &Linked<'a>, meta: &QueueMeta) -> Scan<'a>
    requires { HasMetadata (file_of linked.now) (QueueFields meta.now) }
    ensures { result ≡ queue_list (file_of linked.now) meta.now }
{
    Scan::over(linked.forest(), *meta)
}
