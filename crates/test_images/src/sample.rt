ghost use Rattle.std.specs.Prelude.{◌≡◌, IfOk, replicate};
ghost use Rattle.std.specs.List.{fold};
ghost use Rattle.test_images.specs.Fields.{field_put};
ghost use Rattle.bdb_tree.specs.of_format.declared.kinds.Order.TheVariants.{Little};

use crate::field::{Field, write};
use bdb_tree::Order;
use std::alloc::{AllocError, Global};

/// An image as what is written over zeros: its size in bytes, and its fields in little-endian.
#[derive(Clone, Copy)]
pub struct Sample {
    pub size: usize,
    pub fields: &'static [Field],
}

impl Sample {
    /// The image. An error means that memory ran out.
    pub fn image(&self, alloc: Global) -> Result<Vec<u8>, AllocError>
        ensures { IfOk result (λ image. image.items ≡ fold (field_put Little) (replicate self.now.size 0) self.now.fields.now) }
    {
        let mut image = vec![in alloc; 0; self.size]?;
        write(&mut image, self.fields, Order::Little);
        Ok(image)
    }
}
