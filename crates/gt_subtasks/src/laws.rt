ghost use Rattle.std.specs.Prelude.{◌≡◌, ◌+◌, List, ℕ};
ghost use Rattle.gt_subtasks.specs.Counters.{counters_of};
ghost use Rattle.gt_subtasks.specs.Growth.{first_items, numbered};
ghost use Rattle.gt_subtasks.specs.declared.item.Item.{Item};
ghost use Rattle.gt_types.specs.declared.spec.Spec.{Spec};

/// The seven classes of a task's items sum to the total.
pub fn classes_sum_to_total()
    ensures { (task : ℕ) (items : List Item) → let all = counters_of task items in
        all.pending + all.retrying + all.succeeded + all.expired + all.canceled
        + all.failed + all.skipped_errors ≡ all.total }
{}

/// The items that a task begins with bear the numbers that they get when they are added where they were made for.
pub fn first_items_keep_their_numbers()
    ensures { (task number : ℕ) (spec : Spec)
        → numbered number (first_items task number spec) ≡ first_items task number spec }
{}
