//! Trees that are read in preorder, as far as they are known.
ghost use Rattle.std.specs.Prelude.{◌≡◌, ◌++◌, IsTrue, List, Some, [], length};
ghost use Rattle.model_data.specs.declared.solution.CertNode.{CertNode};
ghost use Rattle.search_laws.specs.Trees.{still_open};
ghost use Rattle.solve_defs.specs.Certificates.{Subtree, are_whole};

/// Nodes behind these are read where these leave off.
pub fn a_tree_is_read_on()
    ensures { (later more : List Subtree) (tree nodes : List CertNode) → still_open later tree ≡ Some more → still_open later (tree ++ nodes) ≡ still_open more nodes }
{}

/// The nodes make up whole trees just where nothing is still to come, and nothing stands behind them.
pub fn a_tree_is_whole_where_nothing_is_to_come()
    ensures whole { (later : List Subtree) (tree : List CertNode) → still_open later tree ≡ Some [] → IsTrue (are_whole (length later) tree) }
    ensures ends { (later : List Subtree) (tree : List CertNode) → IsTrue (are_whole (length later) tree) → still_open later tree ≡ Some [] }
{}
