ghost use Rattle.std.specs.Prelude.{refl};
ghost use Rattle.std.specs.Cmp.{partial_equiv_from_equiv, partial_order_from_agreeing_total};
ghost use Rattle.std.specs.Cmp.Lexicographic.{lists_equiv, lists_ties, lists_total, nat_list_cmp_total, nat_list_eq_equiv, slice_cmp, texts_ties};
ghost use Rattle.std.specs.Ordering.{as_partial_cmp, nat_cmp};
ghost use Rattle.gt_paths.specs.Path.{path_cmp, same_path};

use super::Path;
use std::cmp::Ordering;

impl PartialEq for Path {
    ghost eq = { same_path };

    ghost laws = { partial_equiv_from_equiv (lists_equiv nat_list_eq_equiv) };

    fn eq(&self, other: &Path) -> bool {
        self.names == other.names
    }
}

impl Eq for Path {
    ghost laws = { lists_equiv nat_list_eq_equiv };
}

impl PartialOrd for Path {
    ghost partial_cmp = { as_partial_cmp path_cmp };

    ghost laws = { partial_order_from_agreeing_total path_cmp (lists_total nat_list_cmp_total) (λ _ _. refl) (lists_ties (slice_cmp nat_cmp) texts_ties) };

    fn partial_cmp(&self, other: &Path) -> Option<Ordering> {
        Some(self.cmp(other))
    }
}

impl Ord for Path {
    ghost cmp = { path_cmp };

    ghost total = { lists_total nat_list_cmp_total };

    ghost matches_partial_cmp = { λ _ _. refl };

    ghost matches_eq = { lists_ties (slice_cmp nat_cmp) texts_ties };

    fn cmp(&self, other: &Path) -> Ordering {
        self.names.cmp(&other.names)
    }
}
