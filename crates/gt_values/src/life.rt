ghost use Rattle.gt_values.specs.Life as spec;
ghost use Rattle.std.specs.Prelude.{◌≡◌};

/// Whether a rule that was born and ended at these events counts at event `k`. It counts from the event after its birth
/// to the event before its end.
pub fn is_alive(k: u64, born: u64, ended: Option<u64>) -> bool
    ensures { result ≡ spec.is_alive k born ended }
{
    born < k && ended.is_none_or(|ended| k < ended)
}
