ghost use Rattle.std.specs.Prelude.{◌≡◌, ◌<◌, ◌^◌};
ghost use Rattle.std.specs.List.{fold};
ghost use Rattle.bdb_format.specs.Terms.{bucket, first_page, group, hash5, hash_step};

/// The hash of a key.
pub fn hash5(bytes: &[u8]) -> u32
    ensures { result ≡ hash5 bytes.now }
{
    hash5_after(0, bytes)
}

/// The hash of a key of which these bytes are the next after those with this hash, 0 for none.
pub fn hash5_after(hash: u32, bytes: &[u8]) -> u32
    ensures { result ≡ fold hash_step hash bytes.now }
{
    bytes.iter().fold(
        hash,
        |hash, byte| hash.wrapping_mul(16_777_619) ^ u32::from(*byte),
    )
}

/// The bucket of a hash in a table with this greatest bucket and these masks.
pub fn bucket_of(hash: u32, max_bucket: u32, high_mask: u32, low_mask: u32) -> u32
    ensures { result ≡ bucket hash max_bucket high_mask low_mask }
{
    if hash & high_mask > max_bucket {
        hash & low_mask
    } else {
        hash & high_mask
    }
}

/// The group of a bucket: the least `g` with `2^g` above the bucket.
pub fn group_of(bucket: u32) -> u32
    ensures { result ≡ group bucket }
{
    u32::BITS - bucket.leading_zeros()
}

/// The first page of a bucket, by the spares of its table.
pub fn page_of(bucket: u32, spares: &[u32; 32]) -> u64
    requires { bucket < 2 ^ 31 }
    ensures { result ≡ first_page bucket spares.now }
{
    u64::from(bucket) + u64::from(spares[group_of(bucket) as usize])
}
