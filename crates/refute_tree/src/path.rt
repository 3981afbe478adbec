ghost use Rattle.std.specs.Prelude.{◌≡◌, ◌<◌, ◌+◌, ◌^◌, length};

/// Literals of which each begins at the point where the one before it ends: the points, and between two of them the bound.
#[derive(Clone, Copy)]
pub struct Path<'a> {
    pub points: &'a [u16],
    pub bounds: &'a [i32],
    ghost shape: { length points.now ≡ length bounds.now + 1 },
    ghost few: { length bounds.now < 2 ^ 32 },
}
