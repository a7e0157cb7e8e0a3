//! Preparing a table for passes, emptying it, and consuming it.
ghost use Rattle.std.specs.Prelude.{◌≡◌, ◌≤◌, ◌<◌, ◌+◌, ℕ, [], ◌++◌, ◌-◌, ◌^◌};
ghost use Rattle.std.specs.Prelude.{◌∷◌, length, OnOk, OnErr, IfOk, IfSome, IsSome, Some, None};
ghost use Rattle.std.specs.Prelude.{true, vec_len, vec_capacity, slice_set, sum_by};
ghost use Rattle.std.specs.Option.{option_to_list};
ghost use Rattle.fx_base.specs.declared.open_file.Closed.{Closed};
ghost use Rattle.fx_plain.specs.State.{vacant, opening, IsSettled, files_of, files_in_order};
ghost use Rattle.fx_plain.specs.OwnNumbers.{HaveOwnOutside, AreVacant, AreFiled, IsRenumbered};
ghost use Rattle.fx_plain.specs.Contents.{state_of, numbers_of, IsTable, IsPrepared, slot_at};
ghost use Rattle.fx_plain.specs.Contents.{node_at, moved_node, identity_in, file_named};
ghost use Rattle.fx_plain.specs.Contents.{nodes_without, opening_slot, file_at, AllPlaced};
ghost use Rattle.fx_plain.specs.Contents.{HaveOwnNumbers, SameButPlaced, removed_count_of, At};

use crate::hold_list::HoldList;
use crate::node::Node;
use crate::node_list::NodeList;
use crate::slot_span::SlotSpan;
use crate::table::PlainTable;
use fx_base::{CloseList, NoMemory};
use std::alloc::Global;
use std::mem;

impl PlainTable {
    /// Prepares a settled table ([`PlainTable::is_settled`]) for passes: the file at a slot gets
    /// the slot's number, and the numbers from the size up to `numbers - 1` are fresh. Requires
    /// that `numbers` is at least [`PlainTable::size`]. Files, size and range stay the same, the
    /// table stays settled, and empty slots stay empty. Memory for all numbers, under 64 bytes for
    /// each, is reserved now unless an earlier preparation reserved it. It is written only up to
    /// the greatest number that a file gets.
    ///
    /// # Errors
    /// `NoMemory` if that allocation fails. The table then stays as it was.
    pub fn prepare(&mut self, numbers: u32) -> Result<(), NoMemory>
        requires settled { IsSettled (state_of self.old) }
        requires numbers { (state_of self.old).size ≤ numbers }
        ensures ok { OnOk result (state_of self.new ≡ opening (state_of self.old) numbers) }
        ensures numbers { OnOk result (numbers_of self.new ≡ numbers) }
        ensures prepared { OnOk result (IsPrepared self.new) }
        ensures size { OnOk result ((state_of self.new).size ≡ (state_of self.old).size) }
        ensures empty { OnOk result ((slot : ℕ) → (state_of self.old).at slot ≡ None
            → (state_of self.new).at slot ≡ None) }
        ensures settled { OnOk result (IsSettled (state_of self.new)) }
        ensures fresh { OnOk result ((number : ℕ) → (state_of self.old).size ≤ number
            → number < numbers → (state_of self.new).fresh number ≡ true) }
        ensures sound { IsTable self.new }
        ensures err { OnErr result (self.new ≡ self.old) }
    {
        let holds = self.holds.zeros_beyond(self.nodes.allocator(), numbers)?;
        renumber(&mut self.slots, &mut self.nodes, &self.to_renumber, numbers)?;
        self.holds.start_again(holds, numbers);
        self.to_renumber = SlotSpan::none();
        self.numbers = numbers;
        Ok(())
    }

    /// Closes all files of a settled table ([`PlainTable::is_settled`]), in order of slot. Requires
    /// room for them in the list ([`CloseList::room`] is at least [`PlainTable::full`]), so that it
    /// can't run out of memory. Afterwards the table has no slots and an empty allocation range.
    /// The number of prepared numbers stays the same. The table stays settled and has no file, so
    /// [`PlainTable::dismiss`] may follow (io_uring_register(2), "IORING_UNREGISTER_FILES").
    pub fn empty_into(&mut self, closes: &mut CloseList)
        requires settled { IsSettled (state_of self.old) }
        requires room { length (files_of (state_of self.old)) ≤ closes.old.room }
        ensures files { closes.new.files ≡ closes.old.files ++ files_of (state_of self.old) }
        ensures room { closes.new.room + length (files_of (state_of self.old)) ≡ closes.old.room }
        ensures empty { state_of self.new
            ≡ record (vacant 0) { fresh = (state_of self.old).fresh } }
        ensures settled { IsSettled (state_of self.new) }
        ensures no_files { files_of (state_of self.new) ≡ [] }
        ensures numbers { numbers_of self.new ≡ numbers_of self.old }
    {
        close_all(&self.slots, &mut self.nodes, closes);
        self.slots.clear();
        self.range_start = 0;
        self.range_len = 0;
        self.full = 0;
        self.to_renumber = SlotSpan::none();
    }

    /// Consumes a settled table ([`PlainTable::is_settled`]) that has no file ([`PlainTable::full`]
    /// is 0).
    pub fn dismiss(self)
        requires settled { IsSettled (state_of self) }
        requires empty { files_of (state_of self) ≡ [] }
    {
        self.abandon();
    }

    /// Consumes the table and discards all its files, without listing them. It is the way out after
    /// a fault, and can't run out of memory.
    pub fn abandon(self) {
        let PlainTable {
            slots: _,
            range_start: _,
            range_len: _,
            nodes,
            holds: _,
            numbers: _,
            full: _,
            held: _,
            removed: _,
            to_renumber: _,
        } = self;
        nodes.spend();
    }
}

// Takes the file of a slot out of its node, and returns the node that the slot's own number gets.
fn move_file(slots: &mut Vec<Option<u32>>, nodes: &mut NodeList, slot: usize) -> Node
    requires slot { (slot < vec_len slots.old) × (slot < 2 ^ 32) }
    requires inside { IfSome (slot_at slots.old.items slot)
        (λ n. IsSome (identity_in (node_at nodes.old n))) }
    ensures node { result ≡ moved_node (file_named nodes.old (slot_at slots.old.items slot)) slot }
    ensures slots { slots.new.items
        ≡ slice_set slots.old.items slot (opening_slot (slot_at slots.old.items slot) slot) }
    ensures nodes { nodes.new ≡ nodes_without nodes.old (slot_at slots.old.items slot) }
{
    let Some(number) = slots[slot] else {
        return Node::Gone;
    };
    slots[slot] = Some(slot as u32);
    Node::At(slot as u32, nodes.take_file(number))
}

// Moves the file at each slot to the node of the slot's own number, and makes the list `numbers`
// nodes long. It reuses the list if that has room.
fn renumber(
    slots: &mut Vec<Option<u32>>,
    nodes: &mut NodeList,
    span: &SlotSpan,
    numbers: u32,
) -> Result<(), NoMemory>
    requires few { vec_len slots.old < 2 ^ 32 }
    requires enough { vec_len slots.old ≤ numbers }
    requires placed { AllPlaced slots.old.items nodes.old }
    requires own { HaveOwnNumbers slots.old.items }
    requires outside { HaveOwnOutside slots.old.items span.now }
    requires vacant { AreVacant slots.old.items nodes.old }
    ensures ok { OnOk result
        (IsRenumbered slots.old.items nodes.old slots.new.items nodes.new numbers) }
    ensures err { OnErr result ((slots.new ≡ slots.old) × (nodes.new ≡ nodes.old)) }
{
    if nodes.extend(slots.len(), numbers) {
        renumber_in_place(slots, nodes, span);
        nodes.cut(slots.len(), numbers);
        return Ok(());
    }
    let mut moved = Vec::with_capacity(nodes.allocator(), numbers as usize)?;
    renumber_into(slots, nodes, &mut moved);
    let renumbered = NodeList::new(moved, numbers);
    mem::replace(nodes, renumbered).spend();
    Ok(())
}

// Moves each file at a slot to the node of the slot's own number, in a new list.
fn renumber_into(slots: &mut Vec<Option<u32>>, nodes: &mut NodeList, moved: &mut Vec<Node>)
    requires few { vec_len slots.old < 2 ^ 32 }
    requires placed { AllPlaced slots.old.items nodes.old }
    requires room { (moved.old.items ≡ []) × (vec_len slots.old ≤ vec_capacity moved.old) }
    ensures filed { AreFiled slots.old.items nodes.old slots.new.items moved.new.items }
    ensures count { vec_len moved.new ≡ vec_len slots.old }
    ensures capacity { vec_capacity moved.new ≡ vec_capacity moved.old }
{
    for slot in 0..slots.len() {
        let node = move_file(slots, nodes, slot);
        moved.push_reserved(node);
    }
}

// Moves the file that a slot names to the node of the slot's own number, unless it is there
// already.
#[tactic(auto, using(crate::proofs::Removals::seen_at, crate::proofs::OwnNumbers::node_settled))]
fn settle(slots: &mut Vec<Option<u32>>, nodes: &mut NodeList, slot: usize)
    requires slot { (slot < vec_len slots.old) × (slot < 2 ^ 32) }
    requires node { slot < length nodes.old }
    requires placed { (number : ℕ) → slot_at slots.old.items slot ≡ Some number
        → (file : Closed) × (node_at nodes.old number ≡ At slot file) }
    ensures slots { slots.new.items
        ≡ slice_set slots.old.items slot (opening_slot (slot_at slots.old.items slot) slot) }
    ensures nodes { nodes.new ≡ slice_set (nodes_without nodes.old (slot_at slots.old.items slot))
        slot (moved_node (file_named nodes.old (slot_at slots.old.items slot)) slot) }
{
    if let Some(number) = slots[slot] {
        if number as usize == slot {
            return;
        }
    }
    let node = move_file(slots, nodes, slot);
    nodes.set_node(slot as u32, node);
}

// Does what `renumber_into` does, within the same list. Slots outside the span need no change.
fn renumber_in_place(slots: &mut Vec<Option<u32>>, nodes: &mut NodeList, span: &SlotSpan)
    requires few { vec_len slots.old < 2 ^ 32 }
    requires placed { AllPlaced slots.old.items nodes.old }
    requires own { HaveOwnNumbers slots.old.items }
    requires nodes { vec_len slots.old ≤ length nodes.old }
    requires outside { HaveOwnOutside slots.old.items span.now }
    requires vacant { AreVacant slots.old.items nodes.old }
    ensures filed { AreFiled slots.old.items nodes.old slots.new.items nodes.new }
    ensures len { length nodes.new ≡ length nodes.old }
{
    for slot in span.start as usize..span.end as usize {
        settle(slots, nodes, slot);
    }
}

// Closes the file that a slot names, if there is one.
fn close_file(slot: Option<u32>, nodes: &mut NodeList, closes: &mut CloseList)
    requires inside { IfSome slot (λ n. IsSome (identity_in (node_at nodes.old n))) }
    requires room { length (option_to_list (file_named nodes.old slot)) ≤ closes.old.room }
    ensures files { closes.new.files
        ≡ closes.old.files ++ option_to_list (file_named nodes.old slot) }
    ensures room { closes.new.room + length (option_to_list (file_named nodes.old slot))
        ≡ closes.old.room }
    ensures nodes { nodes.new ≡ nodes_without nodes.old slot }
{
    let Some(number) = slot else {
        return;
    };
    closes.close(nodes.take_file(number));
}

// Closes the files of all slots, in order of slot.
fn close_all(slots: &Vec<Option<u32>>, nodes: &mut NodeList, closes: &mut CloseList)
    requires placed { AllPlaced slots.now.items nodes.old }
    requires room { length
        (files_in_order (λ slot. file_at nodes.old (slot_at slots.now.items slot))
        (length slots.now.items)) ≤ closes.old.room }
    ensures files { closes.new.files ≡ closes.old.files
        ++ files_in_order (λ slot. file_at nodes.old (slot_at slots.now.items slot))
        (length slots.now.items) }
    ensures room { closes.new.room
        + length (files_in_order (λ slot. file_at nodes.old (slot_at slots.now.items slot))
        (length slots.now.items)) ≡ closes.old.room }
    ensures len { length nodes.new ≡ length nodes.old }
    ensures nodes { (number : ℕ)
        → SameButPlaced (node_at nodes.old number) (node_at nodes.new number) }
    ensures removed { sum_by removed_count_of nodes.new ≡ sum_by removed_count_of nodes.old }
{
    for slot in 0..slots.len() {
        close_file(slots[slot], nodes, closes);
    }
}
