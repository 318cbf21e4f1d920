//! Trees as flat lists.

ghost use Rattle.std.specs.Prelude.{◌≡◌, ◌<◌, length};
ghost use Rattle.am_text.specs.Trees.{counted};

/// One node of a tree that is held as a flat list, each node before those within it.
#[derive(Drop)]
pub struct Node<T> {
    /// What stands at the node.
    pub item: T,
    /// How many nodes are within it; they are the next ones of the list.
    pub within: usize,
}

/// Counts all nodes after the one of this number as within it.
pub fn count_within<T>(nodes: &mut Vec<Node<T>>, number: usize)
    requires { number < length nodes.old.items }
    ensures { nodes.new.items ≡ counted number nodes.old.items }
{
    let within = nodes.len() - number - 1;
    nodes[number].within = within;
}
