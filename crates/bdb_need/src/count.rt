use std::alloc::AllocError;

/// How many pages there are; an error means that memory ran out.
pub type Count = Result<u128, AllocError>;
