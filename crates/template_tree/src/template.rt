// A template as a tree.
ghost use Rattle.template_tree.specs.Inner.OneProof.{SoundNodes-prop};
ghost use Rattle.template_tree.specs.Sound.{SoundNodes};
ghost use Rattle.template_tree.specs.Tree.{nodes_view};

use crate::node::Node;

/// A template: what `parse` reads from a text. Contracts see `tree_of` it.
#[derive(Debug, Drop)]
pub struct Template {
    nodes: Vec<Node>,
    ghost sound: { SoundNodes 0 (nodes_view nodes.items) } by { SoundNodes-prop 0 (nodes_view nodes.items) },
}

impl Template {
    ghost use Rattle.std.specs.Prelude.{◌≡◌};
    ghost use Rattle.template_tree.specs.Template.{tree_of};

    /// Takes the nodes over, without copying them.
    pub(crate) fn new(nodes: Vec<Node>) -> Template
        requires { SoundNodes 0 (nodes_view nodes.items) }
        ensures { tree_of result ≡ nodes_view nodes.items }
    {
        Template { nodes }
    }

    /// Its nodes in order, which are handed over.
    pub fn into_nodes(self) -> Vec<Node>
        ensures nodes { nodes_view result.items ≡ tree_of self }
        ensures sound { SoundNodes 0 (tree_of self) }
    {
        self.nodes
    }
}
