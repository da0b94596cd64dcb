// Whether an answer is the one that was expected.
ghost use Rattle.std.specs.Prelude.{◌≡◌, IfErr, IfOk, IsErrOf, IsTrue};
ghost use Rattle.gt_forest.specs.Calls.{is_decided};
ghost use Rattle.gt_forest_suite.specs.Suite.{IsNoVerdict};

use crate::suite_fault::SuiteFault;
use gt_forest::TreeFault;

/// The answer, unless the forest failed or had no memory.
pub(crate) fn found<T: Drop>(
    answer: Result<T, TreeFault>,
) -> Result<Result<T, TreeFault>, SuiteFault>
    ensures ok { IfOk result (λ found. (found ≡ answer) × IsTrue (is_decided answer)) }
    ensures cause { IsErrOf result SuiteFault.ForestFault → IsErrOf answer TreeFault.Fault }
    ensures fault { IfErr result IsNoVerdict }
{
    match answer {
        Err(TreeFault::Fault) => Err(SuiteFault::ForestFault),
        Err(TreeFault::OutOfMemory) => Err(SuiteFault::OutOfMemory),
        answer => Ok(answer),
    }
}

/// The answer of the forest in memory, of which no call is to fail.
pub(crate) fn expected<T: Drop>(
    answer: Result<T, TreeFault>,
) -> Result<Result<T, TreeFault>, SuiteFault>
    ensures ok { IfOk result (λ found. (found ≡ answer) × IsTrue (is_decided answer)) }
    ensures fault { IfErr result (λ fault. fault ≡ SuiteFault.OutOfMemory) }
{
    match answer {
        Err(TreeFault::Fault) => Err(SuiteFault::OutOfMemory),
        Err(TreeFault::OutOfMemory) => Err(SuiteFault::OutOfMemory),
        answer => Ok(answer),
    }
}

/// What a comparison says of the call of this number.
pub(crate) fn verdict(is_same: bool, call: u64) -> Result<(), SuiteFault>
    ensures cause { IsErrOf result SuiteFault.ForestFault → ⊥ }
    ensures fault { IsTrue is_same → IfErr result IsNoVerdict }
{
    if is_same {
        Ok(())
    } else {
        Err(SuiteFault::OtherAnswer { call })
    }
}
