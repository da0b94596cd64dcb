//! The owners of collections.

ghost use Rattle.gt_setup.specs.Grammar.{owned};
ghost use Rattle.gt_setup.specs.Setup.{has_identity};
ghost use Rattle.std.specs.Prelude.{◌≡◌, IfErr, OnOk, find, map, not};

use crate::fault::SetupFault;
use crate::parts::Collection;
use crate::setup::Setup;
use gt_values::Id;

/// Whether each owner of the setup's collections is an identity.
#[tactic(auto, using(crate::proofs::OwnerLemmas::owner_unknown, crate::proofs::OwnerLemmas::owners_known))]
pub(crate) fn check_owners(setup: &Setup, collections: &[Collection]) -> Result<(), SetupFault>
    requires { collections.now ≡ setup.now.collections }
    ensures ok { OnOk result (owned setup.now ≡ Ok setup.now) }
    ensures fault { IfErr result (λ f. owned setup.now ≡ Err f) }
{
    match unknown_owner(setup, collections) {
        Some(id) => Err(SetupFault::UnknownIdentity { id }),
        None => Ok(()),
    }
}

// The first owner that is no identity.
fn unknown_owner(setup: &Setup, collections: &[Collection]) -> Option<Id>
    ensures { result
        ≡ find (λ owner. not (has_identity setup.now owner)) (map (λ c. c.owner) collections.now) }
{
    for collection in collections {
        if setup.who(&collection.owner).is_none() {
            return Some(collection.owner);
        }
    }
    None
}
