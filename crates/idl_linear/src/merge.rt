//! The difference of two lists of summands, one by one.
ghost use Rattle.std.specs.Prelude.{◌≡◌, ◌+◌, ◌<◌, length, [], MatchOption, IfSome};
ghost use Rattle.idl_linear.specs.Limits.{points_limit};
ghost use Rattle.idl_linear.specs.Linear.{put_before};
ghost use Rattle.idl_linear.specs.code.Steps.{IsRest, less};

use crate::cursor::Cursor;
use crate::summand::Summand;

/// What is left of two lists by ascending time points.
#[derive(Drop)]
pub(crate) struct Merge<'a> {
    pub(crate) left: Cursor<'a>,
    pub(crate) right: Cursor<'a>,
}

impl<'a> Merge<'a> {
    /// The next summand of the first list less the second. Its coefficient is 0 where the two cancel.
    pub(crate) fn next(&mut self) -> Option<Summand>
        requires left { IsRest self.old.left }
        requires right { IsRest self.old.right }
        ensures left { IsRest self.new.left }
        ensures right { IsRest self.new.right }
        ensures next { MatchOption result
            (less self.old.left self.old.right ≡ [])
            (λ s. less self.old.left self.old.right
            ≡ put_before s (less self.new.left self.new.right)) }
        ensures point { IfSome result (λ s. s.point < points_limit) }
        ensures fewer { IfSome result (λ _. length self.new.left + length self.new.right < length
            self.old.left + length self.old.right) }
    {
        match (self.left.peek(), self.right.peek()) {
            (None, None) => None,
            (Some(s), None) => {
                self.left.next();
                Some(s)
            }
            (None, Some(t)) => {
                self.right.next();
                Some(t.negative())
            }
            (Some(s), Some(t)) => {
                if s.point < t.point {
                    self.left.next();
                    return Some(s);
                }
                if t.point < s.point {
                    self.right.next();
                    return Some(t.negative());
                }
                self.left.next();
                self.right.next();
                Some(Summand {
                    point: s.point,
                    coefficient: s.coefficient - t.coefficient,
                })
            }
        }
    }
}
