//! Laws of the definitions alone.
ghost use Rattle.idl_linear.specs.Laws.{SumValue, LessValue, DifferenceValue, NegativeValue, NumberValue, PointValue, NumberIsWithin, PointsAreTheirs};

/// The value of a sum is the sum of the values, on all values of the time points; so with differences. A comparison's
/// difference is right where the zero point's value is 0.
pub fn linear_law()
    ensures sum { SumValue }
    ensures less { LessValue }
    ensures difference { DifferenceValue }
    ensures negative { NegativeValue }
    ensures number { NumberValue }
    ensures point { PointValue }
{}

/// A comparison's number is within its limit, and its time points are those of the terms or the zero point.
pub fn comparison_law()
    ensures number { NumberIsWithin }
    ensures points { PointsAreTheirs }
{}
