//! How far points are to stand behind others, by the point before.
use std::alloc::{AllocError, Global};

/// The point is to stand as far behind the other, or further.
#[derive(Clone, Copy, PartialEq, Eq, PartialOrd, Ord)]
pub(crate) struct Gap {
    pub from: u32,
    pub to: u32,
    pub length: i64,
}

/// The gaps in the order of the points before.
pub(crate) struct Gaps {
    gaps: Vec<Gap>,
    /// for each point where its gaps end
    ends: Vec<usize>,
}

impl Drop for Gaps {
    fn drop(self) {
        let Gaps { gaps, ends } = self;
        drop(gaps);
        drop(ends);
    }
}

impl Gaps {
    /// These gaps of so many points.
    pub fn new(alloc: Global, mut gaps: Vec<Gap>, points: usize) -> Result<Self, AllocError> {
        gaps.sort_unstable();
        let mut ends = vec![in alloc; 0; points]?;
        for (place, gap) in gaps.iter().enumerate() {
            if let Some(end) = ends.get_mut(gap.from as usize) {
                *end = place.saturating_add(1);
            }
        }
        let mut last = 0;
        for end in ends.iter_mut() {
            last = last.max(*end);
            *end = last;
        }
        Ok(Gaps { gaps, ends })
    }

    pub fn as_slice(&self) -> &[Gap] {
        &self.gaps
    }

    /// Those behind this point.
    pub fn behind(&self, point: usize) -> &[Gap] {
        let start = match point.checked_sub(1) {
            Some(before) => self.ends.get(before).copied().unwrap_or(0),
            None => 0,
        };
        let end = self.ends.get(point).copied().unwrap_or(0);
        self.gaps.get(start..end).unwrap_or(&[])
    }
}
