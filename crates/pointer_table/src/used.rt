//! Which of many groups ever had a pair, roughly, so that a search passes many without one in a step.

ghost use Rattle.std.specs.Prelude.{◌≡◌, ◌<◌, ◌^◌, IfErr};

use crate::fault::TableFault;
use std::alloc::Global;

/// How many groups share a mark.
pub(crate) const GROUPS_OF_A_MARK: usize = 64;

/// A mark for each 64 groups: whether one of them ever had a pair. No clause speaks of marks, since a wrong one costs
/// time alone.
#[derive(Drop)]
pub(crate) struct Used {
    marks: Vec<bool>,
}

impl Used {
    /// No marks, for so many groups.
    pub(crate) fn none(alloc: Global, groups: usize) -> Result<Used, TableFault>
        requires { groups < 2 ^ 32 }
        ensures err { IfErr result (λ e. e ≡ TableFault.NoMemory) }
    {
        let count = groups.div_ceil(GROUPS_OF_A_MARK);
        match vec![in alloc; false; count] {
            Ok(marks) => Ok(Used { marks }),
            Err(_) => Err(TableFault::NoMemory),
        }
    }

    /// Marks a group; past the last one nothing changes.
    pub(crate) fn mark(&mut self, of: usize) {
        let index = of / GROUPS_OF_A_MARK;
        if index < self.marks.len() {
            self.marks[index] = true;
        }
    }

    /// Whether one of the 64 groups that end at this one may have a pair.
    pub(crate) fn is_used(&self, of: usize) -> bool {
        match self.marks.get(of / GROUPS_OF_A_MARK) {
            Some(mark) => *mark,
            None => false,
        }
    }
}
