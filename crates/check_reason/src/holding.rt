//! Accesses that find a file at a slot: which files may be there, by the orders of a window.

use crate::graph::{Edge, Pair, in_order};
use crate::problem::{AccessPoint, FilePoints, Problem};
use crate::reading::Reading;
use crate::shown::ShownAccess;
use crate::window::{MOST_SLOTS, Window};
use check_certificate::{Evidence, Holding, OnlyFile, Step};
use fx_base::{Closed as File, NoMemory};

// The number of events before a call in which an access is looked for that leaves its slot.
const SINCE: usize = 4_096;

/// Returns the access with the latest call that leaves a slot with a known file or none, and was
/// answered before a call.
pub(crate) fn since(log: &Reading<'_>, slot: u32, before: usize) -> Option<ShownAccess> {
    let mut latest: Option<ShownAccess> = None;
    for at in (before.saturating_sub(SINCE)..before).rev() {
        // an access that was answered before a call has an earlier call
        if matches!(latest, Some(last) if at < last.call) {
            break;
        }
        for access in 0..log.accesses_at(at) {
            let Some(shown) = log.shown_at(at, access) else {
                continue;
            };
            let is_left = matches!(shown.shown.left(), Some((own, _)) if own == slot);
            if is_left && !matches!(latest, Some(last) if last.call > shown.call) {
                latest = Some(shown);
            }
        }
    }
    latest
}

// Checks whether a file that was installed is gone by an access that leaves its slot.
fn is_replaced(install: Option<ShownAccess>, file: File, since: Option<ShownAccess>) -> bool {
    if let Some(install) = install
        && let Some(since) = since
        && let Some((_, left)) = since.shown.left()
    {
        return install.answer < since.call && left != Some(file);
    }
    false
}

impl Problem {
    // Applies the rule to an access that finds a file at a slot. Returns whether an order was
    // added.
    fn hold(&mut self, window: &Window<'_>, z: &AccessPoint, slot: u32) -> Result<bool, NoMemory> {
        let log = window.log;
        let (call, answer, access) = (z.shown.call, z.shown.answer, z.shown.access);
        let last = since(log, slot, call);
        let mut absent = Vec::new(log.alloc);
        let mut holder: Option<FilePoints> = None;
        for known in &window.files {
            let is_here = known.call <= answer && known.slot.unwrap_or(slot) == slot;
            if !is_here
                || is_replaced(known.install, known.file, last)
                || log.reads_other(answer, known.file)
            {
                continue;
            }
            let Some(own) = self.points_of(known.file) else {
                return Ok(false);
            };
            let orders = [
                in_order(z.point, own.put, false),
                in_order(own.gone, z.point, true),
            ];
            if let Some(pair) = self.graph.known_of(orders) {
                absent.push(pair)?;
                continue;
            }
            if holder.is_some() {
                return Ok(false);
            }
            holder = Some(own);
        }
        let list = self.graph.lists.len();
        self.graph.lists.push(absent)?;
        let mut holding = Holding {
            call,
            answer,
            access,
            slot,
            since: last.map_or((0, 0, 0), |it| (it.call, it.answer, it.access)),
            found: OnlyFile::Nothing,
        };
        let Some(own) = holder else {
            return self.add_holding(in_order(z.point, z.point, true), holding, list);
        };
        holding.found = OnlyFile::GoneAfter(own.file);
        let one = self.add_holding(in_order(z.point, own.gone, false), holding, list)?;
        holding.found = OnlyFile::PutBefore(own.file);
        let other = self.add_holding(in_order(own.put, z.point, true), holding, list)?;
        Ok(one || other)
    }

    // Adds an order by the rule, unless it is known.
    fn add_holding(
        &mut self,
        pair: Pair,
        holding: Holding,
        absent: usize,
    ) -> Result<bool, NoMemory> {
        self.graph.add_new(Edge {
            pair,
            step: Step::Holds(holding),
            premises: (None, None),
            absent,
        })
    }

    /// Applies the rule of accesses of different calls to all. Returns whether an order was added.
    pub(crate) fn differ_all(&mut self) -> Result<bool, NoMemory> {
        let mut is_new = false;
        for x in &self.accesses {
            for y in &self.accesses {
                let (call, other, order) = (x.shown.call, y.shown.call, 0);
                if call != other {
                    let step = Step::Differs { call, other, order };
                    let loose = in_order(x.point, y.point, false);
                    let new = in_order(x.point, y.point, true);
                    is_new |= self.graph.add_by(new, step, loose, None)?;
                }
            }
        }
        Ok(is_new)
    }

    /// Applies the rule of accesses that find a file to each of them. Returns whether an order was
    /// added.
    pub(crate) fn hold_all(&mut self, window: &Window<'_>) -> Result<bool, NoMemory> {
        let mut is_new = false;
        for i in 0..self.accesses.len() {
            let Some(z) = self.accesses.get(i).copied() else {
                break;
            };
            let slots = match z.shown.shown {
                Evidence::Removes(slot) | Evidence::Sees(slot) => slot..slot.saturating_add(1),
                Evidence::Full if window.log.size <= MOST_SLOTS => 0..window.log.size,
                _ => 0..0,
            };
            for slot in slots {
                if self.graph.loops.is_none() {
                    is_new |= self.hold(window, &z, slot)?;
                }
            }
        }
        Ok(is_new)
    }
}
