// What follows from the relations of the calls.
ghost use Rattle.gt_forest.specs.Laws.{CallsKeepTrees, TreesDecideAnswers};
ghost use Rattle.gt_forest.specs.Tree.{IsTree, empty_tree};

/// What a told forest holds are trees, in each call that it answers: the root is a folder, and so is the parent of each
/// other path. An empty root is one.
pub fn calls_keep_trees()
    ensures kept { CallsKeepTrees }
    ensures empty { IsTree empty_tree }
{}

/// A told forest that stores what it is given has one answer to a call, where it doesn't fail and has memory: two such
/// forests that are alike answer alike, and stay so.
pub fn trees_decide_answers()
    ensures { TreesDecideAnswers }
{}
