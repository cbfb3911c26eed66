// Laws of tables.
ghost use Rattle.eden_fuse_nodes.specs.Laws.{LearntLies, OneNode, OnePath, RemovedLiesNowhere, RenamedLiesThere};

/// A node lies at one path, and at a path lies one node. What is looked up lies at its name; what is removed lies
/// nowhere, with all below it; what is renamed lies at its new name, with all below it, and what lay there before lies
/// nowhere, with all below that; and all else lies where it lay, or still nowhere.
pub fn node_laws()
    ensures one_path { OnePath }
    ensures one_node { OneNode }
    ensures learnt { LearntLies }
    ensures removed { RemovedLiesNowhere }
    ensures renamed { RenamedLiesThere }
{}
