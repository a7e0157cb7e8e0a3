//! The orders of a window of a log: those that its events show, and then those that the rules of
//! certificates add, until a point comes before itself.

use crate::assembly::{ReasonStep, certificate_of};
use crate::graph::{Graph, in_order};
use crate::reading::Reading;
use crate::shown::ShownAccess;
use crate::window::{Window, WindowFile};
use check_certificate::{Evidence, Point, Step};
use fx_base::{Closed as File, NoMemory};
use fx_flight::LogEvent;

// The number of points above which a window isn't tried.
const MOST_POINTS: usize = 4_000;

/// An access, and the number of its point.
#[derive(Clone, Copy, Debug)]
pub(crate) struct AccessPoint {
    /// The access.
    pub(crate) shown: ShownAccess,
    /// The number of its point.
    pub(crate) point: usize,
}

/// A file at its slot, and the numbers of the points at which it is installed and gone.
#[derive(Clone, Copy, Debug)]
pub(crate) struct FilePoints {
    /// The file.
    pub(crate) file: File,
    /// Its slot.
    pub(crate) slot: u32,
    /// The number of the point at which it is installed.
    pub(crate) put: usize,
    /// The number of the point at which it is gone.
    pub(crate) gone: usize,
}

/// The orders of a window.
#[derive(Drop)]
pub(crate) struct Problem {
    /// The graph.
    pub(crate) graph: Graph,
    /// The accesses, and the files whose slots are known.
    pub(crate) accesses: Vec<AccessPoint>,
    pub(crate) files: Vec<FilePoints>,
}

impl Problem {
    /// Returns the orders that the events of a window show.
    pub(crate) fn of(window: &Window<'_>) -> Result<Problem, NoMemory> {
        let alloc = window.log.alloc;
        let mut problem = Problem {
            graph: Graph::new(alloc),
            accesses: Vec::new(alloc),
            files: Vec::new(alloc),
        };
        problem.add_points(window)?;
        problem.graph.begin(alloc)?;
        problem.add_events(window)?;
        for i in 0..problem.accesses.len() {
            if let Some(access) = problem.accesses.get(i).copied() {
                problem.add_access(window, &access)?;
            }
        }
        for file in &window.files {
            problem.add_file(window, file)?;
        }
        Ok(problem)
    }

    // Adds the points: first those of the events, in the order of their positions.
    fn add_points(&mut self, window: &Window<'_>) -> Result<(), NoMemory> {
        for at in &window.positions {
            self.graph.add_point(Point::Event(*at))?;
        }
        for shown in window.accesses.iter().copied() {
            let own = Point::Access(shown.answer, shown.access);
            let point = self.graph.add_point(own)?;
            self.accesses.push(AccessPoint { shown, point })?;
        }
        for known in &window.files {
            let file = known.file;
            let put = self.graph.add_point(Point::Put(file))?;
            if let Some(slot) = known.slot {
                let gone = self.graph.add_point(Point::Gone(file, slot))?;
                self.files.push(FilePoints {
                    file,
                    slot,
                    put,
                    gone,
                })?;
            }
        }
        Ok(())
    }

    // Adds the order of the events.
    fn add_events(&mut self, window: &Window<'_>) -> Result<(), NoMemory> {
        let mut last = None;
        for (point, at) in window.positions.iter().enumerate() {
            if let Some((before, earlier)) = last {
                let later = *at;
                self.graph
                    .add_known(before, point, Step::Events { earlier, later })?;
            }
            last = Some((point, *at));
        }
        Ok(())
    }

    // Adds the orders of an access: with its call, its answer, and the file that it finds.
    fn add_access(&mut self, window: &Window<'_>, access: &AccessPoint) -> Result<(), NoMemory> {
        let (shown, point) = (access.shown, access.point);
        let (call, answer, access) = (shown.call, shown.answer, shown.access);
        let begins = Step::Begins {
            call,
            answer,
            access,
        };
        if let Ok(event) = window.positions.binary_search(&call) {
            self.graph.add_known(event, point, begins)?;
        }
        let ends = Step::Ends {
            call,
            answer,
            access,
        };
        if let Ok(event) = window.positions.binary_search(&answer) {
            self.graph.add_known(point, event, ends)?;
        }
        if let Evidence::Finds(slot, file) = shown.shown
            && let Some(own) = self.points_of(file)
        {
            self.graph
                .add_known(own.put, point, Step::Follows { call, answer })?;
            if own.slot == slot {
                self.graph
                    .add_known(point, own.gone, Step::Finds { call, answer })?;
            }
        }
        Ok(())
    }

    /// Returns the points of a file.
    pub(crate) fn points_of(&self, file: File) -> Option<FilePoints> {
        self.files.iter().find(|own| own.file == file).copied()
    }

    // Adds the orders of a file: with its call, the answer of its installation, and its close.
    fn add_file(&mut self, window: &Window<'_>, known: &WindowFile) -> Result<(), NoMemory> {
        let file = known.file;
        let Some(own) = self.points_of(file) else {
            return Ok(());
        };
        let call = known.call;
        if let Ok(event) = window.positions.binary_search(&call) {
            self.graph
                .add_known(event, own.put, Step::Calls { call, file })?;
        }
        if let Some(shown) = known.install {
            let (call, answer, access) = (shown.call, shown.answer, shown.access);
            let places = Step::Places {
                call,
                answer,
                access,
            };
            self.graph.add_known(own.put, own.gone, places)?;
            let installs = Step::Installs {
                call,
                answer,
                access,
            };
            if let Ok(event) = window.positions.binary_search(&answer) {
                self.graph.add_known(own.put, event, installs)?;
            }
        }
        if let Some(close) = known.close
            && let Ok(event) = window.positions.binary_search(&close)
        {
            let slot = own.slot;
            self.graph
                .add_known(own.gone, event, Step::Closes { close, slot })?;
            self.graph
                .add_known(own.put, event, Step::Existed { close })?;
        }
        Ok(())
    }
}

impl Graph {
    // Applies the rules of an access that leaves a slot without a file.
    fn by_access(&mut self, z: &AccessPoint, f: &FilePoints) -> Result<bool, NoMemory> {
        let Some((slot, left)) = z.shown.shown.left() else {
            return Ok(false);
        };
        if slot != f.slot || left == Some(f.file) {
            return Ok(false);
        }
        let (call, answer, access) = (z.shown.call, z.shown.answer, z.shown.access);
        let empties = Step::Empties {
            call,
            answer,
            access,
            installed: 0,
        };
        let new = in_order(f.gone, z.point, false);
        let one = self.add_by(new, empties, in_order(f.put, z.point, false), None)?;
        let precedes = Step::Precedes {
            call,
            answer,
            access,
            there: 0,
        };
        let new = in_order(z.point, f.put, true);
        let other = self.add_by(new, precedes, in_order(z.point, f.gone, true), None)?;
        Ok(one || other)
    }

    // Applies the rules of two files of a slot.
    fn by_files(&mut self, f: &FilePoints, g: &FilePoints) -> Result<bool, NoMemory> {
        if f.slot != g.slot || f.file == g.file {
            return Ok(false);
        }
        let placed = Some(in_order(g.put, g.gone, true));
        let displaces = Step::Displaces {
            installed: 0,
            placed: 0,
        };
        let new = in_order(f.gone, g.put, false);
        let one = self.add_by(new, displaces, in_order(f.put, g.put, false), placed)?;
        let outlives = Step::Outlives {
            there: 0,
            placed: 0,
        };
        let new = in_order(g.put, f.put, true);
        let other = self.add_by(new, outlives, in_order(g.put, f.gone, true), placed)?;
        Ok(one || other)
    }

    // Applies the rule of the moments at which all was settled to a file.
    fn by_settled(&mut self, window: &Window<'_>, f: &FilePoints) -> Result<bool, NoMemory> {
        let known = window.files.iter().find(|known| known.file == f.file);
        let close = known.and_then(|known| known.close);
        let mut is_new = false;
        for (event, settled) in window.positions.iter().copied().enumerate() {
            let is_settled = matches!(window.log.events.get(settled), Some(LogEvent::Settled));
            let is_closed = matches!(close, Some(close) if close < settled);
            if !is_settled || is_closed {
                continue;
            }
            let step = Step::Settles {
                settled,
                installed: 0,
                placed: 0,
            };
            let new = in_order(event, f.gone, true);
            let installed = in_order(f.put, event, true);
            let placed = Some(in_order(f.put, f.gone, true));
            is_new |= self.add_by(new, step, installed, placed)?;
        }
        Ok(is_new)
    }
}

impl Problem {
    // Applies each rule with premises once to everything. Returns whether an order was added.
    fn go_on(&mut self, window: &Window<'_>) -> Result<bool, NoMemory> {
        let mut is_new = false;
        for f in &self.files {
            for z in &self.accesses {
                is_new |= self.graph.by_access(z, f)?;
            }
            for g in &self.files {
                is_new |= self.graph.by_files(f, g)?;
            }
            is_new |= self.graph.by_settled(window, f)?;
        }
        Ok(is_new)
    }

    /// Applies the rules until they add nothing, or a point comes before itself.
    pub(crate) fn saturate(&mut self, window: &Window<'_>) -> Result<(), NoMemory> {
        for _ in 0..usize::MAX {
            if self.graph.loops.is_some() {
                break;
            }
            if !self.go_on(window)?
                && !self.differ_all()?
                && !self.hold_all(window)?
                && !self.take_all(window)?
            {
                break;
            }
        }
        Ok(())
    }
}

/// Proposes a certificate from the window of some ranges of positions, with suppositions or not. It
/// is empty if the search finds none.
pub(crate) fn propose(
    log: &Reading<'_>,
    ranges: &[(usize, usize)],
    supposes: bool,
) -> Result<Vec<ReasonStep>, NoMemory> {
    let window = Window::of(log, ranges)?;
    let points = window.positions.len().saturating_add(window.accesses.len());
    if points.saturating_add(window.files.len().saturating_mul(2)) > MOST_POINTS {
        return Ok(Vec::new(log.alloc));
    }
    let mut problem = Problem::of(&window)?;
    problem.saturate(&window)?;
    if supposes {
        problem.suppose_all(&window)?;
    }
    match problem.graph.loops {
        Some(point) => certificate_of(log.alloc, &problem.graph, point),
        None => Ok(Vec::new(log.alloc)),
    }
}
