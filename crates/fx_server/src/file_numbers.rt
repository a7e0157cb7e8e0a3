//! The numbers of the files that a worker installs. A key of the bindings is a slot and the number
//! of its file.
ghost use Rattle.std.specs.Prelude.{◌≡◌};
ghost use Rattle.fx_server.specs.FileNumbers.{first_numbers, after_draw, after_keep, without_kept};

/// The next number of a worker, or 0 if it has used all its numbers or doesn't install files. The
/// number after it is `step` greater. `kept` was drawn for a file that is not installed yet, or is
/// 0.
#[derive(Clone, Copy, Drop)]
pub struct FileNumbers {
    pub next: u64,
    pub step: u64,
    pub kept: u64,
}

impl FileNumbers {
    /// Returns the numbers of a new worker, by its place from 1 in the list of a table's workers.
    /// The first `installing` ones install files.
    pub fn first(installing: u32, place: u32) -> FileNumbers
        ensures { result ≡ first_numbers installing place }
    {
        let next = if installing < place { 0 } else { place as u64 };
        let step = installing as u64;
        FileNumbers {
            next,
            step,
            kept: 0,
        }
    }

    /// Returns the next number, or 0 if there is none.
    #[inline(always)]
    pub fn draw(&mut self) -> u64
        ensures number { result ≡ self.old.next }
        ensures drawn { self.new ≡ after_draw self.old }
    {
        let number = self.next;
        self.next = if number == 0 || self.step > u64::MAX - number {
            0
        } else {
            number + self.step
        };
        number
    }

    /// Draws the next number and keeps it. Returns it.
    #[inline(always)]
    pub fn keep(&mut self) -> u64
        ensures number { result ≡ self.old.next }
        ensures kept { self.new ≡ after_keep self.old }
    {
        self.kept = self.draw();
        self.kept
    }

    /// Returns the number that was kept, or 0, and keeps it no longer.
    #[inline(always)]
    pub fn spend_kept(&mut self) -> u64
        ensures number { result ≡ self.old.kept }
        ensures spent { self.new ≡ without_kept self.old }
    {
        let number = self.kept;
        self.kept = 0;
        number
    }
}
