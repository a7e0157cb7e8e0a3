//! Points, and the orders between them that are known: each is the edge of a graph, and says by
//! which step of a certificate it holds.

use check_certificate::{Point, Step};
use fx_base::NoMemory;
use std::alloc::Global;

/// Two points of a graph, by their numbers, of which the first one comes first.
#[derive(Clone, Copy, Debug)]
pub(crate) struct Pair {
    /// The number of the first point.
    pub(crate) from: usize,
    /// The number of the second point.
    pub(crate) to: usize,
    /// True if the points differ in time.
    pub(crate) strict: bool,
}

/// An order that a step adds.
#[derive(Clone, Copy, Debug)]
pub(crate) struct Edge {
    /// The points.
    pub(crate) pair: Pair,
    /// The step. The numbers of its premises aren't known yet.
    pub(crate) step: Step,
    /// Its premises, in the order of the step's fields.
    pub(crate) premises: (Option<Pair>, Option<Pair>),
    /// The number of its list of further premises, or of its case, if it has one.
    pub(crate) absent: usize,
}

/// A refuted supposition: the edges that follow from it, up to a point that comes before itself.
#[derive(Drop)]
pub(crate) struct RefutedCase {
    /// The number of the edge of the supposed order. Edges from there on are those of the case.
    pub(crate) base: usize,
    /// The edges of the case.
    pub(crate) edges: Vec<Edge>,
    /// The edges that the contradiction needs.
    pub(crate) needs: Needs,
    /// The edges of the path from the point to itself.
    pub(crate) path: Vec<usize>,
}

/// The edges that a certificate needs, and by which edges their premises hold.
#[derive(Drop)]
pub(crate) struct Needs {
    /// For each edge whether it is needed.
    pub(crate) is_needed: Vec<bool>,
    /// The paths of the two premises of each edge from some number on.
    pub(crate) paths: Vec<(Vec<usize>, Vec<usize>)>,
    /// And those of the further premises of each list.
    pub(crate) lists: Vec<Vec<Vec<usize>>>,
}

/// A graph's state before an order was supposed.
#[derive(Drop)]
pub(crate) struct Saved {
    /// The number of edges.
    pub(crate) edges: usize,
    lists: usize,
    last: Vec<usize>,
    bits: Vec<(u64, u64)>,
}

/// A graph of orders, and which points they put in order.
#[derive(Drop)]
pub(crate) struct Graph {
    /// The points.
    pub(crate) points: Vec<Point>,
    /// The edges, in the order in which they were added.
    pub(crate) edges: Vec<Edge>,
    /// Lists of premises: orders by which files aren't at a slot.
    pub(crate) lists: Vec<Vec<Pair>>,
    /// Suppositions that were refuted, each by the edges that it needs.
    pub(crate) cases: Vec<RefutedCase>,
    /// A point that comes before itself.
    pub(crate) loops: Option<usize>,
    // The last edge from each point, and for each edge the one before it from the same point.
    last: Vec<usize>,
    before: Vec<usize>,
    // For each point, a bit for each point that doesn't come before it, and one for each that comes
    // after it.
    words: usize,
    bits: Vec<(u64, u64)>,
}

/// The paths from a point: for each state the cost of the path, and the edge that leads to it with
/// the state before it; and the states from which edges are to be followed.
#[derive(Drop)]
struct Paths {
    reached: Vec<(usize, usize)>,
    now: Vec<usize>,
    next: Vec<usize>,
}

impl Paths {
    // Returns the edge that leads to a state, with the state before it, or `usize::MAX`.
    fn by(&self, state: usize) -> usize {
        self.reached.get(state).map_or(usize::MAX, |it| it.1)
    }

    // Notes a path to a state, if it costs less than the known one. A free edge costs nothing.
    fn reach(&mut self, to: usize, by: usize, cost: usize, is_free: bool) -> Result<(), NoMemory> {
        let cost = cost.saturating_add(usize::from(!is_free));
        let Some(known) = self.reached.get_mut(to) else {
            return Ok(());
        };
        if known.0 <= cost {
            return Ok(());
        }
        *known = (cost, by);
        if is_free {
            self.now.push(to)?;
        } else {
            self.next.push(to)?;
        }
        Ok(())
    }
}

// The bits of a word.
const BITS: usize = 64;

// Returns the word with the bit of one point.
fn bit_of(point: usize) -> u64 {
    1u64 << ((point % BITS) as u32)
}

/// Returns two points in this order.
pub(crate) fn in_order(from: usize, to: usize, strict: bool) -> Pair {
    Pair { from, to, strict }
}

impl Graph {
    /// Returns a graph without points.
    pub(crate) fn new(alloc: Global) -> Graph {
        Graph {
            points: Vec::new(alloc),
            edges: Vec::new(alloc),
            lists: Vec::new(alloc),
            cases: Vec::new(alloc),
            loops: None,
            last: Vec::new(alloc),
            before: Vec::new(alloc),
            words: 0,
            bits: Vec::new(alloc),
        }
    }

    /// Adds a point, and returns its number.
    pub(crate) fn add_point(&mut self, point: Point) -> Result<usize, NoMemory> {
        self.points.push(point)?;
        self.last.push(usize::MAX)?;
        Ok(self.points.len().saturating_sub(1))
    }

    /// Forgets the edges, and makes room for those of all points.
    pub(crate) fn begin(&mut self, alloc: Global) -> Result<(), NoMemory> {
        self.words = self.points.len() / BITS + 1;
        let size = self.words.saturating_mul(self.points.len());
        self.bits = vec![in alloc; (0, 0); size]?;
        Ok(())
    }

    /// Returns what is needed to forget what is added from here on.
    pub(crate) fn save(&self, alloc: Global) -> Result<Saved, NoMemory> {
        Ok(Saved {
            edges: self.edges.len(),
            lists: self.lists.len(),
            last: Vec::from_slice(alloc, self.last.as_slice())?,
            bits: Vec::from_slice(alloc, self.bits.as_slice())?,
        })
    }

    /// Forgets what was added since, and returns the edges of it.
    pub(crate) fn restore(&mut self, alloc: Global, saved: Saved) -> Result<Vec<Edge>, NoMemory> {
        let since = self.edges.get(saved.edges..).unwrap_or(&[]);
        let edges = Vec::from_slice(alloc, since)?;
        self.edges.truncate(saved.edges);
        self.before.truncate(saved.edges);
        self.lists.truncate(saved.lists);
        self.last = saved.last;
        self.bits = saved.bits;
        self.loops = None;
        Ok(edges)
    }

    // Returns the position of a word of a point.
    fn place(&self, point: usize, word: usize) -> usize {
        point.saturating_mul(self.words).saturating_add(word)
    }

    /// Checks whether the orders say so of two points.
    pub(crate) fn holds(&self, pair: Pair) -> bool {
        let place = self.place(pair.from, pair.to / BITS);
        let (loose, after) = self.bits.get(place).copied().unwrap_or((0, 0));
        bit_of(pair.to) & (if pair.strict { after } else { loose }) != 0
    }

    /// Returns the first of these orders that is known.
    pub(crate) fn known_of(&self, pairs: [Pair; 2]) -> Option<Pair> {
        pairs.into_iter().find(|pair| self.holds(*pair))
    }

    // Sets the bits of all points from `to` on in those of a point at or before `from`.
    fn extend(&mut self, point: usize, to: usize, strict: bool) {
        for word in 0..self.words {
            let (own, other) = (self.place(point, word), self.place(to, word));
            let (mut loose, mut after) = self.bits.get(other).copied().unwrap_or((0, 0));
            if to / BITS == word {
                loose |= bit_of(to);
            }
            if strict {
                after = loose;
            }
            if let Some(bits) = self.bits.get_mut(own) {
                bits.0 |= loose;
                bits.1 |= after;
            }
        }
    }

    // Notes that two points are in this order.
    fn close(&mut self, new: Pair) {
        for point in 0..self.points.len() {
            let is_from = point == new.from;
            if is_from || self.holds(in_order(point, new.from, false)) {
                let strict = new.strict || self.holds(in_order(point, new.from, true));
                self.extend(point, new.to, strict);
            }
        }
        if self.holds(in_order(new.from, new.from, true)) {
            self.loops = Some(new.from);
        }
    }

    /// Adds an order.
    pub(crate) fn add(&mut self, edge: Edge) -> Result<(), NoMemory> {
        let number = self.edges.len();
        let Some(last) = self.last.get_mut(edge.pair.from) else {
            return Ok(());
        };
        self.before.push(*last)?;
        *last = number;
        self.edges.push(edge)?;
        if !self.holds(edge.pair) {
            self.close(edge.pair);
        }
        Ok(())
    }

    /// Adds the order that a step without premises adds.
    pub(crate) fn add_known(&mut self, from: usize, to: usize, step: Step) -> Result<(), NoMemory> {
        self.add(Edge {
            pair: in_order(from, to, true),
            step,
            premises: (None, None),
            absent: usize::MAX,
        })
    }

    /// Adds an order by a rule, unless it is known. Returns whether it was added.
    pub(crate) fn add_new(&mut self, edge: Edge) -> Result<bool, NoMemory> {
        if self.loops.is_some() || self.holds(edge.pair) {
            return Ok(false);
        }
        self.add(edge)?;
        Ok(true)
    }

    /// Adds an order by a rule with premises, if they hold and the order isn't known.
    pub(crate) fn add_by(
        &mut self,
        pair: Pair,
        step: Step,
        first: Pair,
        second: Option<Pair>,
    ) -> Result<bool, NoMemory> {
        if !self.holds(first) || matches!(second, Some(second) if !self.holds(second)) {
            return Ok(false);
        }
        self.add_new(Edge {
            pair,
            step,
            premises: (Some(first), second),
            absent: usize::MAX,
        })
    }

    /// Returns a list of edges before the one with number `below` by which two points are in order.
    /// Of all such lists it has the fewest edges, not counting those from an event to the next one.
    pub(crate) fn path(
        &self,
        alloc: Global,
        order: Pair,
        below: usize,
    ) -> Result<Vec<usize>, NoMemory> {
        // A state is a point, and whether a strict edge led there.
        let count = self.points.len().saturating_mul(2);
        let mut paths = Paths {
            reached: vec![in alloc; (usize::MAX, usize::MAX); count]?,
            now: Vec::new(alloc),
            next: Vec::new(alloc),
        };
        paths.now.push(order.from.saturating_mul(2))?;
        for cost in 0..count {
            for _ in 0..usize::MAX {
                let Some(state) = paths.now.pop() else {
                    break;
                };
                self.follow(&mut paths, state, cost, below)?;
            }
            if paths.next.is_empty() {
                break;
            }
            paths.now.append(&mut paths.next)?;
        }
        self.walk_back(alloc, order, &paths)
    }

    // Follows the edges from a state, to which a path of this cost leads.
    fn follow(
        &self,
        paths: &mut Paths,
        state: usize,
        cost: usize,
        below: usize,
    ) -> Result<(), NoMemory> {
        let mut edge = self.last.get(state / 2).copied().unwrap_or(usize::MAX);
        for _ in 0..self.edges.len() {
            let Some(found) = self.edges.get(edge) else {
                break;
            };
            if edge < below {
                let strict = found.pair.strict || state % 2 == 1;
                let to = found.pair.to.saturating_mul(2) | usize::from(strict);
                let by = edge.saturating_mul(2).saturating_add(state % 2);
                let is_free = matches!(found.step, Step::Events { .. });
                paths.reach(to, by, cost, is_free)?;
            }
            edge = self.before.get(edge).copied().unwrap_or(usize::MAX);
        }
        Ok(())
    }

    // Returns the edges that lead to a point, by the edge that leads to each state.
    fn walk_back(&self, alloc: Global, order: Pair, paths: &Paths) -> Result<Vec<usize>, NoMemory> {
        let mut path = Vec::new(alloc);
        let end = order.to.saturating_mul(2);
        let mut state = end.saturating_add(1);
        if !order.strict && paths.by(end) != usize::MAX {
            state = end;
        }
        for _ in 0..paths.reached.len() {
            let edge = paths.by(state);
            let Some(found) = self.edges.get(edge / 2) else {
                break;
            };
            path.push(edge / 2)?;
            state = found.pair.from.saturating_mul(2).saturating_add(edge % 2);
            if state == order.from.saturating_mul(2) {
                break;
            }
        }
        path.reverse();
        Ok(path)
    }
}
