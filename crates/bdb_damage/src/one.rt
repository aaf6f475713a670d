ghost use Rattle.std.specs.Prelude.{◌≡◌, ◌≤◌, cond};

/// 1 where a test passes, else 0.
pub(crate) fn one(passes: bool) -> u32
    ensures value { result ≡ cond passes 1 0 }
    ensures few { result ≤ 1 }
{
    if passes { 1 } else { 0 }
}
