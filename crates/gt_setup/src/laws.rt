//! What holds of each setup that was read, as a clause that a caller can cite. The body is empty.
ghost use Rattle.gt_setup.specs.Apart.{ReadStandsOnce};

/// In a setup that was read no two tokens are equal, no two identities and no two collections.
pub fn stands_once()
    ensures { ReadStandsOnce }
{}
