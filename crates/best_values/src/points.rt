ghost use Rattle.std.specs.Prelude.{◌≡◌};

use std::marker::Model;

/// A list of time points, by their numbers.
pub struct Points {
    points: Vec<u32>,
}

impl Drop for Points {
    fn drop(self) {
        let Points { points } = self;
        drop(points);
    }
}

impl Model for Points {
    ghost use Rattle.std.specs.Prelude.{ℕ, List};

    ghost Value = { List ℕ };

    ghost view = { λ p. p.points.items };
}

impl Points {
    pub fn new(points: Vec<u32>) -> Self
        ensures { result ≡ points.items }
    {
        Points { points }
    }

    pub fn as_slice(&self) -> &[u32]
        ensures { result.now ≡ self.now }
    {
        self.points.as_slice()
    }

    /// The points in a `Vec`, without taking memory.
    pub fn into_vec(self) -> Vec<u32>
        ensures { result.items ≡ self }
    {
        let Points { points } = self;
        points
    }
}
