//! The contradiction of a moment at which all was settled: a file left its slot, and wasn't closed.

use crate::assembly::ReasonStep;
use crate::problem::propose;
use crate::reading::Reading;
use crate::shown::ShownAccess;
use check_certificate::Evidence;
use fx_base::NoMemory;

// The number of files that are tried.
const MOST_FILES: usize = 16;

// Two ranges of positions.
type Ranges = ((usize, usize), (usize, usize));

impl Reading<'_> {
    // Returns the ranges of positions of the calls that installed a file and may have removed it,
    // if the file wasn't closed. With `is_later` the second call begins after the answer of the
    // first one, and leaves the slot without the file.
    fn departure(&self, put: &ShownAccess, is_later: bool) -> Option<Ranges> {
        let Evidence::Installs(slot, file) = put.shown else {
            return None;
        };
        if self.close_of(put.call, file).is_some() {
            return None;
        }
        let own = self.removers.get(slot as usize)?.as_slice();
        let next = own.partition_point(|it| it.call <= put.answer);
        if !is_later {
            let last = own[..next]
                .iter()
                .rfind(|it| it.answer > put.call && it.file != Some(file))?;
            let end = put.answer.max(last.answer).saturating_add(1);
            return Some(((put.call.min(last.call), end), (end, end)));
        }
        own[next..].iter().find_map(|it| {
            let without = self.shown_at(it.answer, it.access)?;
            let left = without.shown.left()?;
            (left != (slot, Some(file))).then_some((
                (put.call, put.answer.saturating_add(1)),
                (it.call, it.answer.saturating_add(1)),
            ))
        })
    }

    /// Returns the steps of a contradiction: the log's beginning ends with all settled, but a file
    /// that left its slot isn't closed. The list is empty if no such file is found.
    pub(crate) fn unclosed(&self) -> Result<Vec<ReasonStep>, NoMemory> {
        let end = self.events.len();
        let mut tried: usize = 0;
        for is_later in [true, false] {
            for slot in 0..self.installs.len() {
                let count = self.installs.get(slot).map_or(0, |own| own.len());
                for nth in 0..count {
                    let put = self
                        .installs
                        .get(slot)
                        .and_then(|own| own.get(nth))
                        .copied();
                    let Some((first, second)) = put.and_then(|it| self.departure(&it, is_later))
                    else {
                        continue;
                    };
                    let ranges = [first, second, (end.saturating_sub(1), end)];
                    let steps = propose(self, &ranges, false)?;
                    tried = tried.saturating_add(1);
                    if !steps.is_empty() || tried >= MOST_FILES {
                        return Ok(steps);
                    }
                }
            }
        }
        Ok(Vec::new(self.alloc))
    }
}
