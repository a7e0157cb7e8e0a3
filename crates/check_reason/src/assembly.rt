//! The certificate of a graph with a point that comes before itself: the steps of the edges that
//! this needs, and no others.

use crate::graph::{Edge, Graph, Needs, Pair, RefutedCase, Saved, in_order};
use check_certificate::{Point, PointOrder, Step};
use fx_base::NoMemory;
use std::alloc::Global;

/// A step of a reason.
#[derive(Clone, Copy, Debug)]
pub struct ReasonStep {
    /// The rule, and what it is applied to.
    pub step: Step,
    /// The order that it adds, as the search says.
    pub order: PointOrder,
}

/// The steps of a certificate so far, and the number of the step of each edge.
#[derive(Drop)]
struct Assembly {
    steps: Vec<ReasonStep>,
    numbers: Vec<usize>,
}

// Sets the numbers of a step's premises.
fn set_premises(step: &mut Step, first: usize, second: usize) {
    match step {
        Step::Settles {
            installed,
            placed,
            ..
        } => (*installed, *placed) = (first, second),
        Step::Displaces { installed, placed } => (*installed, *placed) = (first, second),
        Step::Takes { there, gone, .. } => (*there, *gone) = (first, second),
        Step::TakenBy { there, gone, .. } => (*there, *gone) = (first, second),
        Step::Outlives { there, placed } => (*there, *placed) = (first, second),
        Step::Empties { installed, .. } => *installed = first,
        Step::Misses { installed, .. } => *installed = first,
        Step::Lands { installed, .. } => *installed = first,
        Step::Precedes { there, .. } => *there = first,
        Step::Stays { there, .. } => *there = first,
        Step::Unknown { installed } => *installed = first,
        Step::Differs { order, .. } => *order = first,
        _ => {}
    }
}

// Returns the positions of two events that an edge puts in order.
fn events_of(edge: &Edge) -> Option<(usize, usize)> {
    match edge.step {
        Step::Events { earlier, later } => Some((earlier, later)),
        _ => None,
    }
}

impl Needs {
    // Checks whether an edge is needed.
    fn has(&self, edge: usize) -> bool {
        self.is_needed.get(edge).copied().unwrap_or(false)
    }

    // Notes that the edges of a path are needed.
    fn mark(&mut self, path: &[usize]) {
        for edge in path {
            if let Some(own) = self.is_needed.get_mut(*edge) {
                *own = true;
            }
        }
    }

    // Returns the path of a premise among the edges before one, which are then needed.
    fn path_of(
        &mut self,
        alloc: Global,
        graph: &Graph,
        premise: Option<Pair>,
        below: usize,
    ) -> Result<Vec<usize>, NoMemory> {
        let mut path = Vec::new(alloc);
        if let Some(order) = premise {
            path = graph.path(alloc, order, below)?;
            self.mark(&path);
        }
        Ok(path)
    }

    // Notes what an edge needs besides its premises.
    fn mark_further(
        &mut self,
        alloc: Global,
        graph: &Graph,
        edge: &Edge,
        number: usize,
    ) -> Result<(), NoMemory> {
        if matches!(edge.step, Step::Otherwise) {
            if let Some(case) = graph.cases.get(edge.absent) {
                for (own, is_needed) in case.needs.is_needed.iter().enumerate() {
                    if *is_needed && own < case.base {
                        self.mark(&[own]);
                    }
                }
            }
            return Ok(());
        }
        if let Some(pairs) = graph.lists.get(edge.absent) {
            let mut further = Vec::new(alloc);
            for pair in pairs {
                further.push(self.path_of(alloc, graph, Some(*pair), number)?)?;
            }
            if let Some(own) = self.lists.get_mut(edge.absent) {
                *own = further;
            }
        }
        Ok(())
    }
}

// Returns what is needed of the edges from a number on for those of a path.
fn needs_of(alloc: Global, graph: &Graph, path: &[usize], from: usize) -> Result<Needs, NoMemory> {
    let mut needs = Needs {
        is_needed: vec![in alloc; false; graph.edges.len()]?,
        paths: Vec::new(alloc),
        lists: graph.lists.iter().map(|_| Vec::new(alloc)).collect(alloc)?,
    };
    needs.mark(path);
    for (number, edge) in graph.edges.iter().enumerate().skip(from).rev() {
        let mut paths = (Vec::new(alloc), Vec::new(alloc));
        if needs.has(number) {
            paths.0 = needs.path_of(alloc, graph, edge.premises.0, number)?;
            paths.1 = needs.path_of(alloc, graph, edge.premises.1, number)?;
            needs.mark_further(alloc, graph, edge, number)?;
        }
        needs.paths.push(paths)?;
    }
    needs.paths.reverse();
    Ok(needs)
}

/// Returns the case of an order that was supposed when a graph was saved: it leads to a point that
/// comes before itself.
pub(crate) fn case_of(
    alloc: Global,
    graph: &mut Graph,
    saved: Saved,
    point: usize,
) -> Result<RefutedCase, NoMemory> {
    let path = graph.path(alloc, in_order(point, point, true), graph.edges.len())?;
    let base = saved.edges;
    let needs = needs_of(alloc, graph, &path, base)?;
    let edges = graph.restore(alloc, saved)?;
    Ok(RefutedCase {
        base,
        edges,
        needs,
        path,
    })
}

/// Returns the order of two points of a graph.
pub(crate) fn order_of(graph: &Graph, pair: Pair) -> PointOrder {
    let end = Point::Event(0);
    PointOrder {
        from: graph.points.get(pair.from).copied().unwrap_or(end),
        to: graph.points.get(pair.to).copied().unwrap_or(end),
        strict: pair.strict,
    }
}

impl Assembly {
    // Appends the step that joins two others.
    fn push_join(&mut self, first: usize, second: usize) -> Result<(), NoMemory> {
        if let Some(one) = self.steps.get(first).copied()
            && let Some(other) = self.steps.get(second).copied()
        {
            let order = PointOrder {
                from: one.order.from,
                to: other.order.to,
                strict: one.order.strict || other.order.strict,
            };
            let step = Step::Then { first, second };
            self.steps.push(ReasonStep { step, order })?;
        }
        Ok(())
    }

    // Joins a step to the last one of a path, if there is one.
    fn append(&mut self, last: usize, number: usize) -> Result<usize, NoMemory> {
        if last == usize::MAX {
            return Ok(number);
        }
        self.push_join(last, number)?;
        Ok(self.steps.len().saturating_sub(1))
    }

    // Appends the step that puts two events in order, and joins it to the last one of a path.
    fn append_events(&mut self, last: usize, run: (usize, usize)) -> Result<usize, NoMemory> {
        let (earlier, later) = run;
        let (from, to, strict) = (Point::Event(earlier), Point::Event(later), true);
        let order = PointOrder { from, to, strict };
        let step = Step::Events { earlier, later };
        let number = self.steps.len();
        self.steps.push(ReasonStep { step, order })?;
        self.append(last, number)
    }

    // Appends the steps that join the edges of a path, and returns the number of the last step.
    // Edges of events that follow each other are one step. Edges from `base` on are a case's.
    fn join(&mut self, graph: &Graph, path: &[usize], base: usize) -> Result<usize, NoMemory> {
        let mut last = usize::MAX;
        let mut run = None;
        for edge in path {
            let own = graph.edges.get(*edge).filter(|_| *edge < base);
            if let Some(events) = own.and_then(events_of) {
                run = Some((run.unwrap_or(events).0, events.1));
                continue;
            }
            if let Some(events) = run {
                last = self.append_events(last, events)?;
                run = None;
            }
            let number = self.numbers.get(*edge).copied().unwrap_or(usize::MAX);
            last = self.append(last, number)?;
        }
        if let Some(events) = run {
            last = self.append_events(last, events)?;
        }
        Ok(last)
    }

    // Appends the steps of an edge, the one with number `nth` from `base` on. Returns the number of
    // the last one.
    fn push(
        &mut self,
        graph: &Graph,
        needs: &Needs,
        edge: &Edge,
        nth: usize,
        base: usize,
    ) -> Result<usize, NoMemory> {
        if let Some(list) = needs.lists.get(edge.absent) {
            for further in list {
                self.join(graph, further, base)?;
            }
        }
        let mut step = edge.step;
        if let Some((first, second)) = needs.paths.get(nth) {
            let first = self.join(graph, first, base)?;
            let second = self.join(graph, second, base)?;
            set_premises(&mut step, first, second);
        }
        let order = order_of(graph, edge.pair);
        self.steps.push(ReasonStep { step, order })?;
        Ok(self.steps.len().saturating_sub(1))
    }

    // Appends the steps of an order that is supposed, up to the one that refutes it.
    fn push_case(
        &mut self,
        graph: &Graph,
        edge: &Edge,
        case: &RefutedCase,
    ) -> Result<usize, NoMemory> {
        let base = case.base;
        self.numbers.truncate(base);
        for (nth, own) in case.edges.iter().enumerate() {
            let mut number = usize::MAX;
            if nth == 0 || case.needs.has(base.saturating_add(nth)) {
                number = self.push(graph, &case.needs, own, nth, base)?;
            }
            self.numbers.push(number)?;
        }
        self.join(graph, &case.path, base)?;
        self.numbers.truncate(base);
        let (step, order) = (edge.step, order_of(graph, edge.pair));
        self.steps.push(ReasonStep { step, order })?;
        Ok(self.steps.len().saturating_sub(1))
    }
}

/// Returns the steps that lead from the edges of a graph to a point that comes before itself.
pub(crate) fn certificate_of(
    alloc: Global,
    graph: &Graph,
    point: usize,
) -> Result<Vec<ReasonStep>, NoMemory> {
    let whole = graph.edges.len();
    let path = graph.path(alloc, in_order(point, point, true), whole)?;
    let needs = needs_of(alloc, graph, &path, 0)?;
    let mut assembly = Assembly {
        steps: Vec::new(alloc),
        numbers: Vec::new(alloc),
    };
    for (number, edge) in graph.edges.iter().enumerate() {
        let mut own = usize::MAX;
        if events_of(edge).is_none() && needs.has(number) {
            let case = graph.cases.get(edge.absent);
            own = match case {
                Some(case) if matches!(edge.step, Step::Otherwise) => {
                    assembly.push_case(graph, edge, case)?
                }
                _ => assembly.push(graph, &needs, edge, number, whole)?,
            };
        }
        assembly.numbers.push(own)?;
    }
    assembly.join(graph, &path, whole)?;
    Ok(assembly.steps)
}
