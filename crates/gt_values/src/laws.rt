//! What the makers and readers of values keep, as clauses that a caller can cite. Each body is empty.
ghost use Rattle.gt_values.specs.IdText.{FourForms};
ghost use Rattle.gt_values.specs.Ident.{MadeApart};
ghost use Rattle.gt_values.specs.Profile.{MomentProfile};

/// A text stands for an identifier exactly where it writes it in one of the four forms of a UUID.
pub fn four_forms()
    ensures { FourForms }
{}

/// Identifiers that are equal were made under one namespace, of one kind and one number.
pub fn made_apart()
    ensures { MadeApart }
{}

/// A text stands for a moment exactly where it writes it in the profile of RFC 3339.
pub fn moment_profile()
    ensures { MomentProfile }
{}
