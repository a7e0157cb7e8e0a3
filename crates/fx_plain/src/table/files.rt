//! Taking all files out of a table, and putting files back.
ghost use Rattle.std.specs.Prelude.{◌≡◌, ◌+◌, ◌<◌, ◌≤◌, ◌↔◌, ◌++◌, ℕ, length, IsTrue};
ghost use Rattle.std.specs.Prelude.{IfSome, IsSome, Some, None, vec_len, vec_capacity, sum_by};
ghost use Rattle.fx_plain.specs.State.{IsSettled};
ghost use Rattle.fx_plain.specs.Step.{changed_at};
ghost use Rattle.fx_plain.specs.Contents.{state_of, numbers_of, IsPrepared, IsTable, slot_at};
ghost use Rattle.fx_plain.specs.Contents.{node_at, file_at, identity_in, file_named, nodes_without};
ghost use Rattle.fx_plain.specs.Contents.{removed_count_of, AllPlaced, SameButPlaced};
ghost use Rattle.fx_plain.specs.Table.{numbered, slots_in_order};

use crate::node::Node;
use crate::node_list::NodeList;
use crate::table::PlainTable;
use fx_base::OpenFile;

impl PlainTable {
    /// Checks whether there is room for a file at each slot under the slot's own number. That is so
    /// after a preparation ([`PlainTable::prepare`]), and in a table without slots.
    pub fn is_prepared(&self) -> bool
        ensures { IsTrue result ↔ IsPrepared self.now }
    {
        self.slots.len() <= self.nodes.len() as usize
    }

    /// Takes all files out of a settled table ([`PlainTable::is_settled`]), slot by slot: each
    /// slot's file, or `None`, is appended to the list. Requires room in the list for as many
    /// elements as there are slots, so that it can't run out of memory. Afterwards every slot is
    /// empty. Size, range and numbers stay the same.
    pub fn take_files(&mut self, files: &mut Vec<Option<OpenFile>>)
        requires settled { IsSettled (state_of self.old) }
        requires room { vec_len files.old + (state_of self.old).size ≤ vec_capacity files.old }
        ensures files { files.new.items ≡ files.old.items
            ++ slots_in_order (state_of self.old).at (state_of self.old).size }
        ensures capacity { vec_capacity files.new ≡ vec_capacity files.old }
        ensures empty { state_of self.new ≡ record (state_of self.old) { at = λ _. None } }
        ensures numbers { numbers_of self.new ≡ numbers_of self.old }
        ensures prepared { IsPrepared self.old → IsPrepared self.new }
    {
        take_each(&self.slots, &mut self.nodes, files);
        self.slots.fill(None);
        self.full = 0;
    }

    /// Puts a file at an empty slot of a settled table ([`PlainTable::is_settled`]), under the
    /// slot's own number, as a preparation does. Requires that the table has room for it
    /// ([`PlainTable::is_prepared`]), so that it can't run out of memory. The table stays settled.
    /// It is for files that are installed before the table is shared, and for those that
    /// [`PlainTable::take_files`] took out.
    pub fn put_back(&mut self, slot: u32, file: OpenFile)
        requires slot { slot < (state_of self.old).size }
        requires empty { (state_of self.old).at slot ≡ None }
        requires settled { IsSettled (state_of self.old) }
        requires prepared { IsPrepared self.old }
        ensures state { state_of self.new ≡ record (state_of self.old) {
          at = changed_at (state_of self.old).at slot (Some (numbered slot file));
        } }
        ensures numbers { numbers_of self.new ≡ numbers_of self.old }
        ensures size { (state_of self.new).size ≡ (state_of self.old).size }
        ensures settled { IsSettled (state_of self.new) }
        ensures prepared { IsPrepared self.new }
        ensures sound { IsTable self.new }
    {
        self.nodes.set_node(slot, Node::At(slot, file));
        self.slots[slot as usize] = Some(slot);
        self.full += 1;
    }
}

// Takes the file that a slot names out of its node.
fn take_named(slot: Option<u32>, nodes: &mut NodeList) -> Option<OpenFile>
    requires { IfSome slot (λ n. IsSome (identity_in (node_at nodes.old n))) }
    ensures file { result ≡ file_named nodes.old slot }
    ensures nodes { nodes.new ≡ nodes_without nodes.old slot }
{
    Some(nodes.take_file(slot?))
}

// Takes the files of all slots out, in order of slot.
fn take_each(slots: &Vec<Option<u32>>, nodes: &mut NodeList, files: &mut Vec<Option<OpenFile>>)
    requires placed { AllPlaced slots.now.items nodes.old }
    requires room { vec_len files.old + vec_len slots.now ≤ vec_capacity files.old }
    ensures files { files.new.items ≡ files.old.items
        ++ slots_in_order (λ slot. file_at nodes.old (slot_at slots.now.items slot))
        (length slots.now.items) }
    ensures capacity { vec_capacity files.new ≡ vec_capacity files.old }
    ensures len { length nodes.new ≡ length nodes.old }
    ensures nodes { (number : ℕ)
        → SameButPlaced (node_at nodes.old number) (node_at nodes.new number) }
    ensures removed { sum_by removed_count_of nodes.new ≡ sum_by removed_count_of nodes.old }
{
    for slot in 0..slots.len() {
        files.push_reserved(take_named(slots[slot], nodes));
    }
}
