//! Whether two linear terms are the same.
ghost use Rattle.std.specs.Prelude.{◌≡◌, IsTrue};

use crate::linear::Linear;

/// A fingerprint with one more word.
pub fn mixed(fingerprint: u64, word: u64) -> u64 {
    (fingerprint ^ word)
        .wrapping_mul(0x9e37_79b9_7f4a_7c15)
        .rotate_left(29)
}

impl Linear {
    /// A number that equal terms have in common, and others seldom. It takes no memory, and a time in proportion to the term's length.
    pub fn fingerprint(&self) -> u64 {
        let mut made = mixed(0, self.constant().cast_unsigned());
        let mut left = self.cursor();
        while let Some(summand) = left.next() {
            made = mixed(made, u64::from(summand.point));
            made = mixed(made, summand.coefficient.cast_unsigned());
        }
        made
    }

    /// Whether the two are the same, summand by summand. It takes no memory, and a time in proportion to their lengths.
    pub fn is_same(&self, other: &Linear) -> bool
        ensures { IsTrue result → self.now ≡ other.now }
    {
        if self.constant() != other.constant() {
            return false;
        }
        let mut left = self.cursor();
        let mut right = other.cursor();
        while let Some(summand) = left.next() {
            let Some(beside) = right.next() else {
                return false;
            };
            if beside.point != summand.point || beside.coefficient != summand.coefficient {
                return false;
            }
        }
        right.next().is_none()
    }
}
