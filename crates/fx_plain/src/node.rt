//! Nodes: the state of the file with a given number.
ghost use Rattle.std.specs.Prelude.{◌≡◌, MatchOption, Some, None};
ghost use Rattle.fx_plain.specs.Contents.{is_fresh, is_leaving, is_retired, identity_in};
ghost use Rattle.fx_plain.specs.Contents.{node_after_removal, node_after_retirement};

use fx_base::OpenFile;

// The state of a number and its file.
pub(crate) enum Node {
    // No file has had the number.
    Fresh,
    // At a slot.
    At(u32, OpenFile),
    // Removed, and not yet retired.
    Leaving(OpenFile),
    // Retired, and still held.
    Retired(OpenFile),
    // The file was closed, or the number was never assigned to one.
    Gone,
}

pub(crate) fn is_fresh(node: &Node) -> bool
    ensures { result ≡ is_fresh node.now }
{
    matches!(node, Node::Fresh)
}

pub(crate) fn is_leaving(node: &Node) -> bool
    ensures { result ≡ is_leaving node.now }
{
    matches!(node, Node::Leaving(_))
}

pub(crate) fn is_retired(node: &Node) -> bool
    ensures { result ≡ is_retired node.now }
{
    matches!(node, Node::Retired(_))
}

// Returns the file of a node in any state that has one.
pub(crate) fn file_in(node: &Node) -> Option<&OpenFile>
    ensures { MatchOption result (identity_in node.now ≡ None)
        (λ file. identity_in node.now ≡ Some file.now) }
{
    match node {
        Node::At(_, file) | Node::Leaving(file) | Node::Retired(file) => Some(file),
        Node::Fresh | Node::Gone => None,
    }
}

// Takes the file out of a node, if it has one, for a caller that consumes it.
pub(crate) fn into_file(node: Node) -> Option<OpenFile>
    ensures { result ≡ identity_in node }
{
    match node {
        Node::At(_, file) | Node::Leaving(file) | Node::Retired(file) => Some(file),
        Node::Fresh | Node::Gone => None,
    }
}

// Discards the file of a node, if it has one.
pub(crate) fn spend_node(node: Node) {
    if let Some(file) = into_file(node) {
        file.discard();
    }
}

// Marks the file of a node as leaving, when it has left its slot.
pub(crate) fn node_after_removal(node: Node) -> Node
    ensures { result ≡ node_after_removal node }
{
    match node {
        Node::At(_, file) => Node::Leaving(file),
        other => other,
    }
}

// Marks the leaving file of a node as retired.
pub(crate) fn node_after_retirement(node: Node) -> Node
    ensures { result ≡ node_after_retirement node }
{
    match node {
        Node::Leaving(file) => Node::Retired(file),
        other => other,
    }
}
