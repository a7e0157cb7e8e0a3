//! The nodes of a table by number. Memory for all of them is reserved at once, and a node is
//! written when its number is first used, so that unused numbers cost no time.
ghost use Rattle.std.specs.Prelude.{◌≡◌, ◌<◌, ◌≤◌, ℕ, [], false, length, take, slice_index_or};
ghost use Rattle.std.specs.Prelude.{slice_set, vec_len, vec_capacity, IsSome, IsTrue, Some};
ghost use Rattle.fx_plain.specs.Contents.{node_at, is_fresh, is_leaving, is_retired, identity_in};
ghost use Rattle.fx_plain.specs.Contents.{node_after_removal, node_after_retirement, KeepsFirst};
ghost use Rattle.fx_plain.specs.Contents.{Fresh, Gone};
ghost use Rattle.fx_plain.specs.Reserved.{with_rest};

use crate::node::{
    Node, file_in, into_file, is_fresh, is_leaving, is_retired, node_after_removal,
    node_after_retirement, spend_node,
};
use fx_base::OpenFile;
use std::alloc::Global;
use std::marker::Model;
use std::mem;

// The nodes of all numbers below `len`. Those after the written ones are fresh.
pub(crate) struct NodeList {
    written: Vec<Node>,
    len: u32,
}

impl Model for NodeList {
    ghost use Rattle.std.specs.Prelude.{List, ◌≤◌, vec_len, vec_capacity};
    ghost use Rattle.fx_plain.specs.declared.node.Node.{Node};
    ghost use Rattle.fx_plain.specs.Contents.{Fresh};
    ghost use Rattle.fx_plain.specs.Reserved.{with_rest};

    ghost Value = { List Node };

    ghost view = { λ nodes. with_rest Fresh nodes.len nodes.written.items };

    ghost invariant = { λ nodes.
        (vec_len nodes.written ≤ nodes.len) × (nodes.len ≤ vec_capacity nodes.written) };
}

impl NodeList {
    pub(crate) fn none(alloc: Global) -> NodeList
        ensures { result ≡ [] }
    {
        NodeList {
            written: Vec::new(alloc),
            len: 0,
        }
    }

    // Creates `len` nodes: the written ones, and then fresh ones.
    pub(crate) fn new(written: Vec<Node>, len: u32) -> NodeList
        requires few { vec_len written ≤ len }
        requires room { len ≤ vec_capacity written }
        ensures { KeepsFirst written.items (length written.items) len result }
    {
        NodeList { written, len }
    }

    // Extends the list to at least `len` nodes, if the first `kept` nodes are there and no
    // allocation is needed. Returns whether it did.
    pub(crate) fn extend(&mut self, kept: usize, len: u32) -> bool
        ensures there { IsTrue result → kept ≤ length self.old }
        ensures enough { IsTrue result → len ≤ length self.new }
        ensures same { IsTrue result → (number : ℕ) → number < length self.old
            → node_at self.new number ≡ node_at self.old number }
        ensures longer { IsTrue result → length self.old ≤ length self.new }
        ensures refused { result ≡ false → self.new ≡ self.old }
    {
        if kept > self.len as usize {
            return false;
        }
        if len <= self.len {
            return true;
        }
        if len as usize > self.written.capacity() {
            return false;
        }
        self.len = len;
        true
    }

    // Keeps the first `kept` nodes and discards the files of the others. Afterwards there are `len`
    // nodes, and those after the kept ones are fresh.
    pub(crate) fn cut(&mut self, kept: usize, len: u32)
        requires kept { kept ≤ len }
        requires len { len ≤ length self.old }
        ensures { KeepsFirst self.old kept len self.new }
    {
        cut_off(&mut self.written, kept);
        self.len = len;
    }

    pub(crate) fn len(&self) -> u32
        ensures { result ≡ length self.now }
    {
        self.len
    }

    pub(crate) fn allocator(&self) -> Global {
        *self.written.allocator()
    }

    pub(crate) fn is_fresh(&self, number: u32) -> bool
        ensures { result ≡ is_fresh (node_at self.now number) }
    {
        match self.written.get(number as usize) {
            Some(node) => is_fresh(node),
            None => number < self.len,
        }
    }

    pub(crate) fn is_leaving(&self, number: u32) -> bool
        ensures { result ≡ is_leaving (node_at self.now number) }
    {
        self.written.get(number as usize).is_some_and(is_leaving)
    }

    pub(crate) fn is_retired(&self, number: u32) -> bool
        ensures { result ≡ is_retired (node_at self.now number) }
    {
        self.written.get(number as usize).is_some_and(is_retired)
    }

    // Returns the file of a number in any state that has one.
    pub(crate) fn file(&self, number: u32) -> &OpenFile
        requires { IsSome (identity_in (node_at self.now number)) }
        ensures { Some result.now ≡ identity_in (node_at self.now number) }
    {
        let Some(file) = file_in(&self.written[number as usize]) else {
            unreachable!()
        };
        file
    }

    // Writes a node. Callers write only where there is no file.
    #[tactic(auto, using(crate::proofs::Emptying::length_with_rest, crate::proofs::Emptying::with_rest_set))]
    pub(crate) fn set_node(&mut self, number: u32, node: Node)
        requires { number < length self.old }
        ensures { self.new ≡ slice_set self.old number node }
    {
        write_up_to(&mut self.written, number);
        spend_node(put_in(&mut self.written, number as usize, node));
    }

    // Takes the file of a number out of its node.
    #[tactic(auto, using(crate::proofs::Emptying::written_inside, crate::proofs::Emptying::with_rest_set))]
    pub(crate) fn take_file(&mut self, number: u32) -> OpenFile
        requires { IsSome (identity_in (node_at self.old number)) }
        ensures answer { Some result ≡ identity_in (node_at self.old number) }
        ensures after { self.new ≡ slice_set self.old number Gone }
    {
        let Some(file) = into_file(put_in(&mut self.written, number as usize, Node::Gone)) else {
            unreachable!()
        };
        file
    }

    // Marks the file of a number as leaving: it has left its slot.
    pub(crate) fn leave(&mut self, number: u32)
        requires { IsSome (identity_in (node_at self.old number)) }
        ensures { self.new
            ≡ slice_set self.old number (node_after_removal (node_at self.old number)) }
    {
        let node = put_in(&mut self.written, number as usize, Node::Gone);
        spend_node(put_in(&mut self.written, number as usize, node_after_removal(node)));
    }

    // Marks the leaving file of a number as retired.
    pub(crate) fn retire(&mut self, number: u32)
        requires { IsSome (identity_in (node_at self.old number)) }
        ensures { self.new
            ≡ slice_set self.old number (node_after_retirement (node_at self.old number)) }
    {
        let node = put_in(&mut self.written, number as usize, Node::Gone);
        spend_node(put_in(
            &mut self.written,
            number as usize,
            node_after_retirement(node),
        ));
    }

    // Discards every file of the nodes.
    pub(crate) fn spend(self) {
        let NodeList {
            mut written,
            len: _,
        } = self;
        while let Some(node) = written.pop() {
            spend_node(node);
        }
        written.destroy_empty();
    }
}

// Puts a node at a place, and returns the one that was there.
fn put_in(nodes: &mut Vec<Node>, at: usize, node: Node) -> Node
    requires { at < vec_len nodes.old }
    ensures after { nodes.new.items ≡ slice_set nodes.old.items at node }
    ensures before { result ≡ slice_index_or nodes.old.items at Gone }
    ensures len { vec_len nodes.new ≡ vec_len nodes.old }
    ensures capacity { vec_capacity nodes.new ≡ vec_capacity nodes.old }
{
    mem::replace(&mut nodes[at], node)
}

// Discards the files of all nodes but the first `kept`, and drops these nodes.
fn cut_off(nodes: &mut Vec<Node>, kept: usize)
    ensures nodes { nodes.new.items ≡ take kept nodes.old.items }
    ensures capacity { vec_capacity nodes.new ≡ vec_capacity nodes.old }
{
    for _ in kept..nodes.len() {
        if let Some(node) = nodes.pop() {
            spend_node(node);
        }
    }
}

// Appends fresh nodes up to this number, unless they are written already.
#[tactic(auto, using(crate::proofs::Emptying::with_rest_push))]
fn write_up_to(nodes: &mut Vec<Node>, number: u32)
    requires { number < vec_capacity nodes.old }
    ensures inside { number < vec_len nodes.new }
    ensures few { (len : ℕ) → number < len → vec_len nodes.old ≤ len → vec_len nodes.new ≤ len }
    ensures same { (len : ℕ) → number < len
        → with_rest Fresh len nodes.new.items ≡ with_rest Fresh len nodes.old.items }
    ensures capacity { vec_capacity nodes.new ≡ vec_capacity nodes.old }
{
    for _ in nodes.len()..number as usize + 1 {
        nodes.push_reserved(Node::Fresh);
    }
}
