ghost use Rattle.std.specs.Prelude.{◌≡◌, ◌≤◌, IfSome, IsSome, Some, option_copied};
ghost use Rattle.gt_types.specs.SyncLevel.{needs_copy as needs_copy_by};

use gt_types::Stat;
use gt_values::Digest;

/// Whether a file of the source is copied over what stands at the destination.
///
/// Always, without a level or a destination. Else at level 0 not, at level 1 where the sizes differ, at level 2 where
/// the source was written later, and at level 3 where the digests (of the source, then of the destination) differ.
pub fn needs_copy(
    level: Option<u8>,
    source: &Stat,
    destination: Option<&Stat>,
    digests: Option<(Digest, Digest)>,
) -> bool
    requires level { IfSome level (λ n. n ≤ 3) }
    requires digests { level ≡ Some 3 → IsSome destination → IsSome digests }
    ensures { result ≡ needs_copy_by level source.now (option_copied destination.entry) digests }
{
    let (Some(level), Some(destination)) = (level, destination) else {
        return true;
    };
    match level {
        0 => false,
        1 => source.size != destination.size,
        2 => source.mtime > destination.mtime,
        _ => digests.is_some_and(|(source, destination)| source != destination),
    }
}
