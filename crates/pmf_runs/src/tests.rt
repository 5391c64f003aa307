//! A map of runs, its changes and its questions.

ghost use Rattle.std.specs.Prelude.{◌≤◌};

use crate::{IsIn, IsOut, PutIn, RunMap};
use pmf_event::LINE_SIZE;
use pmf_fixtures::Numbers;
use std::alloc::AllocError;
use std::process::Abort;
use std::test::Fail;

mod colour;
mod falling;
mod plain;

use colour::{Colour, Is, Next, Number, Set, To};
use plain::Plain;

/// How many places the small array has: four lines.
const PLACES: u64 = 256;

/// A change of some numbers.
#[derive(Clone, Copy, Debug)]
enum Brush {
    To(Colour),
    Set(bool),
    Next,
}

#[test]
fn a_set_holds_what_was_put_in(rt: HostRuntime) -> Result<(), Fail> {
    let mut set = RunMap::new(rt.alloc(), false);
    set.change(8, 8, &PutIn)?;
    set.change(16, 8, &PutIn)?;
    assert_eq!(rt; set.group_count(), 0, "empty ranges take no memory");
    set.change(8, 16, &PutIn)?;
    set.change(12, 24, &PutIn)?;
    assert_eq!(rt; set.first_where(0, 32, &IsIn), Some(8));
    assert_eq!(rt; set.first_where(8, 32, &IsOut), Some(24));
    assert_eq!(rt; set.first_where(24, 32, &IsIn), None);
    assert_eq!(rt; set.key_count(), 2);
    Ok(())
}

#[test]
fn the_size_of_a_range_costs_nothing(rt: HostRuntime) -> Result<(), Fail> {
    let end = 1 << 63;
    let mut map = RunMap::new(rt.alloc(), Colour::Red);
    map.change(0, end, &To(Colour::Blue))?;
    map.change(end / 2, end / 2 + 1, &To(Colour::Green))?;
    assert_eq!(rt; map.first_where(0, end, &Is(Colour::Green)), Some(end / 2));
    assert_eq!(rt; map.count_lines(0, end, &Is(Colour::Blue)), end / LINE_SIZE);
    assert_eq!(rt; map.count_lines(0, end, &Is(Colour::Green)), 1);
    assert_eq!(rt; map.least_key(0, end, &Number), Some(3));
    map.change(0, u64::MAX, &To(Colour::Red))?;
    assert_eq!(rt; map.key_count(), 0);
    Ok(())
}

/// 62 keys make a leaf full, and one of them goes on to the level above where it is split.
#[test]
fn rising_changes_leave_full_leaves_behind(rt: HostRuntime) -> Result<(), Fail> {
    let mut map = RunMap::new(rt.alloc(), Colour::Red);
    for step in 0..10_000u64 {
        map.change(step * 4, step * 4 + 2, &To(Colour::Green))?;
    }
    assert!(rt; map.key_count() > 19_000, "{}", map.key_count());
    assert!(rt; map.leaf_count() <= 20_000 / 60, "{}", map.leaf_count());
    assert!(rt; map.group_count() <= 7, "{}", map.group_count());
    Ok(())
}

/// A list has room for what a full leaf holds, and for no more, also after its leaf was split at the middle.
#[test]
fn no_list_outgrows_a_full_leaf(rt: HostRuntime) -> Result<(), Fail> {
    let mut map = RunMap::new(rt.alloc(), Colour::Red);
    let mut numbers = Numbers::of(11);
    for _ in 0..10_000 {
        let place = numbers.below(100_000) * 4;
        map.change(place, place + 2, &To(Colour::Green))?;
    }
    assert!(rt; map.leaf_count() > 200, "{}", map.leaf_count());
    assert!(rt; map.most_room() == 64, "{}", map.most_room());
    Ok(())
}

fn some_colour(numbers: &mut Numbers) -> Colour {
    match numbers.below(3) {
        0 => Colour::Red,
        1 => Colour::Green,
        _ => Colour::Blue,
    }
}

fn some_brush(numbers: &mut Numbers) -> Brush {
    match numbers.below(4) {
        0 => Brush::Next,
        1 => some_flag(numbers),
        _ => Brush::To(some_colour(numbers)),
    }
}

fn some_flag(numbers: &mut Numbers) -> Brush {
    Brush::Set(numbers.below(2) == 0)
}

/// Two of so many places, the lesser first.
fn some_range(numbers: &mut Numbers, places: u64) -> (u64, u64)
    ensures { result.0 ≤ result.1 }
{
    let one = up_to(numbers, places);
    let other = up_to(numbers, places);
    (one.min(other), one.max(other))
}

/// A number up to this one.
fn up_to(numbers: &mut Numbers, places: u64) -> u64 {
    numbers.below(places.saturating_add(1).max(1))
}

/// The map has the states of the array.
fn assert_states(rt: &impl Abort, map: &RunMap<Colour>, plain: &Plain) {
    for place in 0..plain.places().saturating_add(2) {
        assert_eq!(rt; map.at(place), plain.at(place), "at {place}");
    }
}

fn assert_answers(rt: &impl Abort, map: &RunMap<Colour>, plain: &Plain, numbers: &mut Numbers) {
    let (first, end) = some_range(numbers, plain.places());
    let test = Is(some_colour(numbers));
    assert_eq!(rt;
        map.first_where(first, end, &test),
        plain.first_where(first, end, test)
    );
    let (begins, ends) = (first / LINE_SIZE * LINE_SIZE, end / LINE_SIZE * LINE_SIZE);
    assert_eq!(rt;
        map.count_lines(begins, ends, &test),
        plain.count_lines(begins, ends, test)
    );
    assert_eq!(rt;
        map.least_key(first, end, &Number),
        plain.least_key(first, end)
    );
}

/// Paints a range of both. Where memory is refused the map has the states that it had.
fn paint_both(
    rt: &impl Abort,
    map: &mut RunMap<Colour>,
    plain: &mut Plain,
    brush: Brush,
    first: u64,
    end: u64,
) -> Result<(), AllocError> {
    let painted = match brush {
        Brush::To(colour) => map.change(first, end, &To(colour)),
        Brush::Set(flag) => map.change(first, end, &Set(flag)),
        Brush::Next => map.change(first, end, &Next),
    };
    if painted.is_err() {
        assert_states(rt, map, plain);
    }
    painted?;
    match brush {
        Brush::To(colour) => plain.change(first, end, &To(colour)),
        Brush::Set(flag) => plain.change(first, end, &Set(flag)),
        Brush::Next => plain.change(first, end, &Next),
    }
    Ok(())
}

#[test]
fn a_map_answers_as_an_array_does(rt: HostRuntime) -> Result<(), Fail> {
    let mut numbers = Numbers::of(1);
    for _list in 0..1000 {
        let mut map = RunMap::new(rt.alloc(), Colour::Red);
        let mut plain = Plain::new(rt.alloc(), PLACES)?;
        let changes = numbers.below(12);
        for _change in 0..changes {
            let (first, end) = some_range(&mut numbers, PLACES);
            let brush = some_brush(&mut numbers);
            paint_both(&rt, &mut map, &mut plain, brush, first, end)?;
            assert_answers(&rt, &map, &plain, &mut numbers);
        }
        assert_states(&rt, &map, &plain);
        assert_eq!(rt; map.key_count(), plain.borders());
        let test = Is(some_colour(&mut numbers));
        assert_eq!(rt; map.count_runs(&test), plain.count_runs(test));
    }
    Ok(())
}

/// Paints so many short ranges of both.
fn paint_small(
    rt: &impl Abort,
    map: &mut RunMap<Colour>,
    plain: &mut Plain,
    numbers: &mut Numbers,
    count: u64,
) -> Result<(), AllocError> {
    let places = plain.places();
    for _small in 0..count {
        let first = up_to(numbers, places);
        let end = first.saturating_add(numbers.below(5)).min(places);
        let brush = some_brush(numbers);
        paint_both(rt, map, plain, brush, first, end)?;
    }
    Ok(())
}

/// A flag of all states of a leaf or of a group is given to them when something below is changed, and asked for before.
#[test]
fn a_map_whose_flags_are_set_answers_as_an_array_does(rt: HostRuntime) -> Result<(), Fail> {
    let mut numbers = Numbers::of(3);
    let mut map = RunMap::new(rt.alloc(), Colour::Red);
    let mut plain = Plain::new(rt.alloc(), 20_000)?;
    for _turn in 0..30 {
        paint_small(&rt, &mut map, &mut plain, &mut numbers, 1_000)?;
        for _flag in 0..4 {
            let (first, end) = some_range(&mut numbers, 20_000);
            let flag = some_flag(&mut numbers);
            paint_both(&rt, &mut map, &mut plain, flag, first, end)?;
            assert_answers(&rt, &map, &plain, &mut numbers);
        }
        let (first, end) = some_range(&mut numbers, 20_000);
        paint_both(&rt, &mut map, &mut plain, Brush::Next, first, end)?;
        assert_states(&rt, &map, &plain);
    }
    Ok(())
}

#[test]
fn a_map_of_many_groups_answers_as_an_array_does_and_takes_out_emptied_parts(
    rt: HostRuntime,
) -> Result<(), Fail> {
    let mut numbers = Numbers::of(2);
    let mut map = RunMap::new(rt.alloc(), Colour::Red);
    let mut plain = Plain::new(rt.alloc(), 20_000)?;
    paint_small(&rt, &mut map, &mut plain, &mut numbers, 20_000)?;
    assert!(rt; map.leaf_count() > 100);
    assert!(rt; map.group_count() > 2);
    assert_states(&rt, &map, &plain);
    for _wide in 0..100 {
        let (first, end) = some_range(&mut numbers, 20_000);
        assert_answers(&rt, &map, &plain, &mut numbers);
        paint_both(&rt, &mut map, &mut plain, Brush::Next, first, end)?;
        assert_answers(&rt, &map, &plain, &mut numbers);
    }
    let before = map.leaf_count();
    let green = Brush::To(Colour::Green);
    paint_both(&rt, &mut map, &mut plain, green, 5_000, 15_000)?;
    assert!(rt; map.leaf_count() < before);
    assert_states(&rt, &map, &plain);
    map.change(0, u64::MAX, &To(Colour::Red))?;
    assert_eq!(rt; map.group_count(), 1);
    assert_eq!(rt; map.leaf_count(), 1);
    assert_eq!(rt; map.key_count(), 0);
    Ok(())
}
