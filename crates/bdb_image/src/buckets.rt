ghost use Rattle.std.specs.Prelude.{◌≡◌, ◌<◌, ◌≤◌, ◌+◌, ◌-◌, ◌^◌, min};
ghost use Rattle.bdb_image.specs.Buckets.{bucket_names, run_names};

use bdb_meta::{group_of, page_of};

/// So many pages one after another, each as a bucket.
#[derive(Clone, Copy)]
pub struct BucketRun {
    pub first: u64,
    pub len: u32,
}

impl BucketRun {
    /// The page behind the last one.
    pub fn end(self) -> u64
        ensures { result ≡ min (self.first + self.len) (2 ^ 64 - 1) }
    {
        self.first.saturating_add(u64::from(self.len))
    }
}

/// The buckets of a table.
#[derive(Clone, Copy)]
pub struct Buckets {
    pub max_bucket: u32,
    pub spares: [u32; 32],
}

impl Buckets {
    /// The pages of a bucket and of those behind it in its group, which are consecutive. So a table has 32 runs at most.
    #[tactic(auto, using(crate::proofs::BucketLemmas::in_group, crate::proofs::BucketLemmas::group_ends, crate::proofs::BucketLemmas::group_fits))]
    pub fn run_from(&self, bucket: u32) -> BucketRun
        requires few { self.now.max_bucket < 2 ^ 31 }
        requires there { bucket ≤ self.now.max_bucket }
        ensures some { 0 < result.len }
        ensures within { bucket + result.len ≤ self.now.max_bucket + 1 }
        ensures names { run_names result.first result.len ≡ bucket_names self.now.spares bucket result.len }
    {
        let group_end = 2_u32.pow(group_of(bucket));
        let end = group_end.min(self.max_bucket + 1);
        BucketRun {
            first: page_of(bucket, &self.spares),
            len: end - bucket,
        }
    }
}
