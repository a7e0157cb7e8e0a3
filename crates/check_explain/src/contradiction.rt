//! Lines of a submission that have no order together. Lines are left out, and the search is
//! repeated.
ghost use Rattle.std.specs.Prelude.{◌<◌};

use crate::claims::{ClaimsView, Stays};
use crate::complaint::Complaint;
use crate::facts::Facts;
use crate::words::Words;
use check_search::{Claim, Found, Limits, Steps, components, explore};
use fx_base::NoMemory;
use fx_chain::Intent;

/// The largest number of states of all searches, in which a search counts at least as many as there
/// are lines, and of one search.
const STATES: usize = 200_000;

const MOST_STATES: usize = 20_000;

/// The largest number of bytes of a search's states.
const BYTES: usize = 67_108_864;

// More lines than this help nobody.
const MOST_LINES: usize = 16;

/// The largest number of choices of the files that stay at several slots.
const MOST_CHOICES: usize = 64;

/// A search for lines that have no order together.
#[derive(Drop)]
struct Contradiction<'a> {
    view: ClaimsView<'a>,
    // True if several slots are looked at.
    has_many: bool,
    // True if the lines have no order only if exactly the files with a `closed` line are closed.
    rests_on_closes: bool,
    // True if each line that isn't left out is known to be needed.
    is_sure: bool,
    // The number of states that are left.
    states: usize,
    // False if an allocation failed.
    is_whole: bool,
}

impl<'a> Contradiction<'a> {
    // Returns the search before any slot is looked at.
    fn new(facts: &'a Facts<'a>) -> Result<Contradiction<'a>, NoMemory> {
        let alloc = facts.case.alloc;
        Ok(Contradiction {
            view: ClaimsView {
                facts,
                slots: vec![in alloc; true; facts.case.size()]?,
                out: vec![in alloc; false; facts.rows.len()]?,
                stays: Stays::AsClosed,
                chosen: vec![in alloc; false; facts.files.len()]?,
            },
            has_many: true,
            rests_on_closes: false,
            is_sure: true,
            states: STATES,
            is_whole: true,
        })
    }

    // Searches for an order of the lines that aren't left out. Returns true if no order exists, or
    // `None` if the search reaches a limit.
    fn searched(&mut self) -> Result<Option<bool>, NoMemory> {
        let alloc = self.view.facts.case.alloc;
        let (cells, strands) = self.view.question()?;
        let steps = Steps::new(alloc, &strands, &cells)?;
        let limits = Limits {
            states: self.states.min(MOST_STATES),
            bytes: BYTES,
        };
        let (rows, found) = explore(alloc, &steps, limits)?;
        let spent = rows.len().max(self.view.out.len());
        self.states = self.states.saturating_sub(spent);
        Ok(match found {
            Found::NoEnd => Some(true),
            Found::Order(_) => Some(false),
            Found::Stopped(_) => None,
        })
    }

    // Searches as `searched` does, if these files stay. Returns `None` also if an allocation fails.
    fn search(&mut self, stays: Stays) -> Option<bool> {
        self.view.stays = stays;
        let seen = self.searched();
        self.is_whole &= seen.is_ok();
        seen.unwrap_or(None)
    }

    // Returns the number of choices of the file that stays at a slot, if any: one if the slot isn't
    // looked at.
    fn choices_at(&self, slot: usize) -> usize
        ensures { 0 < result }
    {
        if !matches!(self.view.slots.get(slot), Some(true)) {
            return 1;
        }
        let files = self.view.facts.files.iter();
        files
            .filter(|it| it.slot as usize == slot)
            .count()
            .saturating_add(1)
    }

    // Searches with the files of a choice, by its number from 0: one of each slot stays, or none.
    fn search_choice(&mut self, choice: usize) -> Option<bool> {
        let facts = self.view.facts;
        let mut rest = choice;
        for slot in 0..facts.case.size() {
            let count = self.choices_at(slot);
            let mut before = rest % count;
            rest /= count;
            for (number, chosen) in self.view.chosen.iter_mut().enumerate() {
                if let Some(it) = facts.files.get(number)
                    && it.slot as usize == slot
                {
                    *chosen = before == 0;
                    before = before.wrapping_sub(1);
                }
            }
        }
        self.search(Stays::Chosen)
    }

    // Checks whether the lines that aren't left out have no order, whichever file of each slot
    // stays: by all choices of one file, or none, that stays there. Returns `None` if that isn't
    // seen.
    fn has_no_order_at_all(&mut self) -> Option<bool> {
        if self.search(Stays::Swept) == Some(true) {
            return Some(true);
        }
        let mut choices = 1usize;
        for slot in 0..self.view.slots.len() {
            choices = choices.saturating_mul(self.choices_at(slot));
        }
        if choices > MOST_CHOICES && self.has_many {
            return None;
        }
        for choice in 0..choices {
            let seen = self.search_choice(choice);
            if seen != Some(true) {
                return seen;
            }
        }
        Some(true)
    }

    // Looks at some slots. Returns whether the lines are seen to have no order there, whichever
    // files are closed, or else by the text.
    fn look_at(&mut self, slots: &[usize]) -> bool {
        for (slot, has) in self.view.slots.iter_mut().enumerate() {
            *has = slots.contains(&slot);
        }
        self.has_many = slots.len() > 1;
        self.rests_on_closes = true;
        if self.search(Stays::AsClosed) != Some(true) {
            return false;
        }
        self.rests_on_closes = self.has_no_order_at_all() != Some(true);
        true
    }

    // Looks at the first slots that chains join and at which the lines have no order. Returns
    // whether there are such slots.
    fn look_at_parts(&mut self) -> Result<bool, NoMemory> {
        let case = self.view.facts.case;
        let mut chains: Vec<Vec<Claim>> = Vec::new(case.alloc);
        for it in self.view.question()?.1 {
            chains.push(it.claims)?;
        }
        for part in &components(case.alloc, case.size(), case.slots.range, &chains)? {
            if part.len() > 1 && self.look_at(part) {
                return Ok(true);
            }
        }
        Ok(false)
    }

    // Leaves out each read and each close that isn't needed.
    fn leave_out(&mut self) {
        let facts = self.view.facts;
        for act in &facts.acts {
            let is_optional = act.found.is_some() && act.file.is_none() && act.slot.is_some();
            let line = act.line;
            if is_optional && line < self.view.out.len() && self.view.has(act) {
                self.view.out[line] = true;
                let mut seen = self.search(Stays::AsClosed);
                if seen != Some(false) && !self.rests_on_closes {
                    seen = self.has_no_order_at_all();
                }
                self.is_sure = self.is_sure && seen.is_some();
                if let Some(is_out) = self.view.out.get_mut(line) {
                    *is_out = seen == Some(true);
                }
            }
        }
    }

    // Checks whether a line is named, or a later one of its chain.
    fn is_named(&self, named: &[usize], chain: u32, line: usize) -> bool {
        let facts = self.view.facts;
        named
            .iter()
            .any(|other| *other >= line && facts.chain_of(*other) == chain)
    }

    // Checks whether a request may sever its chain before an access that may change the slots,
    // unless a later line of the chain is named.
    fn rests_on_others(&self, named: &[usize]) -> bool {
        let facts = self.view.facts;
        for (line, row) in facts.rows.iter().enumerate() {
            let chain = row.place.chain;
            if row.request.links() && row.may_sever() && !self.is_named(named, chain, line) {
                for act in &facts.acts {
                    let is_later = act.line > line && facts.chain_of(act.line) == chain;
                    if is_later && !matches!(act.intent, Intent::Look(_)) && self.view.has(act) {
                        return true;
                    }
                }
            }
        }
        false
    }

    // Looks for lines that have no order, at the blamed slot or at slots that a search finds.
    // Returns whether slots are looked at.
    fn look(&mut self, slot: Option<u32>) -> Result<bool, NoMemory> {
        let is_found = match slot {
            Some(slot) => self.look_at(&[slot as usize]),
            None => self.look_at_parts()?,
        };
        self.is_sure = is_found;
        if is_found {
            self.leave_out();
        }
        if self.is_whole {
            Ok(is_found || slot.is_some())
        } else {
            Err(NoMemory)
        }
    }

    // Appends the reason that some lines have no order together.
    fn why(&self, lines: &[usize], slot: Option<u32>, why: &mut Words) {
        let (none, concerns, unsure) = if lines.len() == 1 {
            (
                "no order of the requests gives this one",
                ", which concerns slot ",
                "; there may be none without it",
            )
        } else {
            (
                "no order of the requests gives all of these",
                ", which concern slot ",
                "; fewer of them may contradict each other",
            )
        };
        why.say(none);
        if let Some(slot) = slot {
            why.count(concerns, u64::from(slot), "");
        }
        if self.rests_on_closes {
            why.say(", and closes no other file");
        }
        if self.rests_on_others(lines) {
            why.say(", and cancels the same requests");
        }
        if !self.is_sure {
            why.say(unsure);
        }
    }
}

/// Looks for at most 16 lines that have no order together, at the blamed slot or at slots that a
/// search finds. Returns whether there are such lines.
pub(crate) fn no_order(
    facts: &Facts<'_>,
    slot: Option<u32>,
    out: &mut Complaint,
) -> Result<bool, NoMemory> {
    let mut those = Contradiction::new(facts)?;
    if !those.look(slot)? {
        return Ok(false);
    }
    those.view.add_named(those.rests_on_closes, out);
    if out.lines.is_empty() || out.lines.len() > MOST_LINES {
        return Ok(false);
    }
    those.why(&out.lines, slot, &mut out.why);
    Ok(true)
}
