// The staging files of a tree in memory.
ghost use Rattle.std.specs.Option.{option_map};
ghost use Rattle.std.specs.Prelude.{◌≡◌, ◌++◌, [], IfSome, IsSome, None, OnErr, OnOk, Some, is_some};
ghost use Rattle.gt_forest.specs.Rows.{PutsStage, SameStages, stage_rows, staged_at, stored};

use std::alloc::{AllocError, Global};
use std::collections::BTreeMap;

/// The bytes of each staging file, by its key.
pub(crate) type Stages = BTreeMap<u64, Vec<u8>>;

/// Whether there is a staging file under the key.
pub(crate) fn has_stage(stages: &Stages, key: u64) -> bool
    ensures { result ≡ is_some (staged_at (stage_rows stages.now) key) }
{
    stages.contains_key(&key)
}

/// An empty staging file, in place of an older one.
pub(crate) fn open_stage(alloc: Global, stages: &mut Stages, key: u64) -> Result<(), AllocError>
    ensures ok { OnOk result
        (PutsStage key (Some []) (stage_rows stages.old) (stage_rows stages.new)) }
    ensures err { OnErr result (stage_rows stages.new ≡ stage_rows stages.old) }
{
    stages.insert(key, Vec::new(alloc))?;
    Ok(())
}

/// Adds the bytes to the end, the first of them inverted where that is asked.
fn add_bytes(stage: &mut Vec<u8>, bytes: &[u8], is_corrupt: bool) -> Result<(), AllocError>
    ensures ok { OnOk result (stage.new.items ≡ stage.old.items ++ stored is_corrupt bytes.now) }
    ensures err { OnErr result (stage.new.items ≡ stage.old.items) }
{
    let at = stage.len();
    stage.extend_from_slice(bytes)?;
    if is_corrupt && at < stage.len() {
        stage[at] = 255 - stage[at];
    }
    Ok(())
}

/// Adds the bytes to a staging file that is there, the first of them inverted where that is asked.
pub(crate) fn append_stage(
    stages: &mut Stages,
    key: u64,
    bytes: &[u8],
    is_corrupt: bool,
) -> Result<(), AllocError>
    requires { IsSome (staged_at (stage_rows stages.old) key) }
    ensures ok { OnOk result (IfSome (staged_at (stage_rows stages.old) key)
        (λ old. PutsStage key (Some (old ++ stored is_corrupt bytes.now))
        (stage_rows stages.old) (stage_rows stages.new))) }
    ensures err { OnErr result (SameStages (stage_rows stages.old) (stage_rows stages.new)) }
{
    if let Some(stage) = stages.get_mut(&key) {
        add_bytes(stage, bytes, is_corrupt)?;
    }
    Ok(())
}

/// Takes a staging file away, and gives its bytes.
pub(crate) fn take_stage(stages: &mut Stages, key: u64) -> Option<Vec<u8>>
    ensures bytes { option_map (λ bytes. bytes.items) result
        ≡ staged_at (stage_rows stages.old) key }
    ensures gone { PutsStage key None (stage_rows stages.old) (stage_rows stages.new) }
{
    stages.remove(&key)
}
