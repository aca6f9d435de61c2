//! The limits of a chart, and the tests of them.

ghost use Rattle.std.specs.Prelude.{◌≡◌, map, nat_le};
ghost use Rattle.std.specs.List.{list_all, sum_by};
ghost use Rattle.plan_net.specs.Limits.{longest_sum};
ghost use Rattle.plan_psplib.specs.Tokens.{greatest};
ghost use Rattle.plan_weeksheet.specs.Drawn as spec;
ghost use Rattle.plan_weeksheet.specs.Rectangles.{rectangle_of};

use crate::rectangle::Rectangle;
use plan_net::{LONGEST_DURATION, LONGEST_SUM};
use plan_psplib::GREATEST_AMOUNT;

// The most rows of a list, and the most resources of a project file.
const MOST_ROWS: usize = 500;

const MOST_RESOURCES: usize = 16;

// The latest start of a chart, in time units.
const LATEST: u64 = 10_000_000;

// Whether no capacity is above the greatest amount of a project file.
fn are_amounts(capacities: &[u64]) -> bool
    ensures { result ≡ list_all (λ capacity. nat_le capacity greatest) capacities.now }
{
    for &capacity in capacities {
        if capacity > GREATEST_AMOUNT {
            return false;
        }
    }
    true
}

// Whether a rectangle is within the limits.
fn is_drawable(rectangle: &Rectangle<'_>) -> bool
    ensures { result ≡ spec.is_drawable (rectangle_of rectangle.now) }
{
    rectangle.lasts <= LONGEST_DURATION && rectangle.from <= LATEST
}

// Whether all rectangles are within the limits.
fn are_drawable(rectangles: &[Rectangle<'_>]) -> bool
    ensures { result ≡ list_all spec.is_drawable (map rectangle_of rectangles.now) }
{
    for rectangle in rectangles {
        if !is_drawable(rectangle) {
            return false;
        }
    }
    true
}

// Whether all durations in sum are within the limit of a project file.
fn has_small_sum(rectangles: &[Rectangle<'_>]) -> bool
    ensures { result
        ≡ nat_le (sum_by (λ r. r.lasts) (map rectangle_of rectangles.now)) longest_sum }
{
    let mut rest = LONGEST_SUM;
    for rectangle in rectangles {
        if rectangle.lasts > rest {
            return false;
        }
        rest -= rectangle.lasts;
    }
    true
}

// Whether the capacities, the times and the sum of the durations are within the limits.
fn are_small(capacities: &[u64], rectangles: &[Rectangle<'_>]) -> bool
    ensures { result ≡ spec.are_small capacities.now (map rectangle_of rectangles.now) }
{
    are_amounts(capacities) && are_drawable(rectangles) && has_small_sum(rectangles)
}

// Whether the numbers of rectangles and of resources are within the limits.
fn are_few(capacities: &[u64], rectangles: &[Rectangle<'_>]) -> bool
    ensures { result ≡ spec.are_few capacities.now (map rectangle_of rectangles.now) }
{
    rectangles.len() <= MOST_ROWS && capacities.len() <= MOST_RESOURCES
}

/// Whether a chart is within the limits.
pub(crate) fn is_within(capacities: &[u64], rectangles: &[Rectangle<'_>], makespan: u64) -> bool
    ensures { result ≡ spec.is_within capacities.now (map rectangle_of rectangles.now) makespan }
{
    are_few(capacities, rectangles) && are_small(capacities, rectangles) && makespan <= LATEST
}
