//! The points within tops, by number.

ghost use Rattle.fws_box.specs.Sides.{IsWithin};

use fws_box::Point;

/// The point nearest to this one whose values are at most the tops.
pub fn within(tops: &Point, point: &Point) -> Point
    ensures { IsWithin tops.now result }
{
    let mut near = [0; 12];
    for field in 0..12 {
        near[field] = point[field].min(tops[field]);
    }
    near
}

/// How many points there are within the tops.
pub fn count_points(tops: &Point) -> usize {
    let mut count: usize = 1;
    for top in tops {
        count = count.saturating_mul((*top as usize).saturating_add(1));
    }
    count
}

/// The point with this number: its values are the digits of the number, the first field's the lowest.
pub fn point_at(tops: &Point, number: usize) -> Point
    ensures { IsWithin tops.now result }
{
    let mut point = [0; 12];
    let mut left = number;
    for field in 0..12 {
        let values = (tops[field] as usize).saturating_add(1);
        point[field] = u32::try_from(left % values).unwrap_or(0);
        left /= values;
    }
    within(tops, &point)
}

/// The number of a point.
pub fn number_of(tops: &Point, point: &Point) -> usize {
    let mut number: usize = 0;
    for field in 0..12 {
        let place = 11 - field;
        let values = (tops[place] as usize).saturating_add(1);
        number = number
            .saturating_mul(values)
            .saturating_add(point[place] as usize);
    }
    number
}
