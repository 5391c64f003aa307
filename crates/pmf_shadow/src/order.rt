//! Numbers in rising order.

ghost use Rattle.std.specs.Prelude.{◌≡◌, ◌<◌, ◌≤◌, ℕ, true, length, get_or, nat_eq, is_some, IfOk};
ghost use Rattle.std.specs.HashMap.{get};
ghost use Rattle.pmf_shadow.specs.Orders.{IsIndexOf, AreListed, NeverFall, NoneListed};

use crate::line::Line;
use std::alloc::{AllocError, Global};
use std::collections::HashMap;

/// The numbers of some lines in rising order, for walks over those of a range.
#[derive(Debug, Drop)]
pub(crate) struct Order {
    numbers: Vec<u64>,
    ghost rises: { NeverFall numbers.items },
}

impl Order {
    /// The order of no numbers. It takes no memory.
    pub(crate) fn new(alloc: Global) -> Order {
        Order {
            numbers: Vec::new(alloc),
        }
    }

    /// The order of the numbers of these lines.
    pub(crate) fn of(alloc: Global, lines: &HashMap<u64, Line>) -> Result<Order, AllocError>
        ensures { IfOk result (λ order. AreListed true order.numbers.items (λ q. is_some (get nat_eq lines.now q))) }
    {
        let mut numbers = numbers_of(alloc, lines)?;
        numbers.sort_unstable();
        Ok(Order { numbers })
    }

    /// The least of the numbers from this one on, if it is below the end, or else the end. The hint is likely its index, and is then that of the one
    /// to be asked of next.
    #[inline(always)]
    pub(crate) fn next(&self, number: u64, end: u64, hint: &mut usize) -> u64
        requires { number ≤ end }
        ensures from { number ≤ result }
        ensures upto { result ≤ end }
        ensures none { NoneListed self.now.numbers.items number result }
    {
        let index = self.index_near(number, *hint);
        *hint = index;
        if index == self.numbers.len() {
            return end;
        }
        let found = self.numbers[index];
        if found == number {
            *hint = index + 1;
        }
        end.min(found)
    }

    /// How many of the numbers are below this one, which are likely as many as the hint.
    #[inline(always)]
    fn index_near(&self, number: u64, hint: usize) -> usize
        ensures { IsIndexOf self.now.numbers.items number result }
    {
        if self.is_index(hint, number) {
            return hint;
        }
        self.index_of(number)
    }

    /// Whether so many of the numbers are below this one.
    #[inline(always)]
    fn is_index(&self, index: usize, number: u64) -> bool
        ensures { result ≡ true → IsIndexOf self.now.numbers.items number index }
    {
        if index > self.numbers.len() {
            return false;
        }
        if index > 0 && self.numbers[index - 1] >= number {
            return false;
        }
        index == self.numbers.len() || number <= self.numbers[index]
    }

    /// How many of the numbers are below this one.
    fn index_of(&self, number: u64) -> usize
        ensures { IsIndexOf self.now.numbers.items number result }
    {
        let mut low = 0;
        let mut high = self.numbers.len();
        while low < high {
            let middle = low + (high - low) / 2;
            if self.numbers[middle] < number {
                low = middle + 1;
            } else {
                high = middle;
            }
        }
        low
    }
}

/// The numbers of these lines, in any order.
fn numbers_of(alloc: Global, lines: &HashMap<u64, Line>) -> Result<Vec<u64>, AllocError>
    ensures { IfOk result (λ numbers. AreListed true numbers.items (λ q. is_some (get nat_eq lines.now q))) }
{
    let mut numbers = Vec::with_capacity(alloc, lines.len())?;
    for (number, _) in lines.iter() {
        numbers.push(*number)?;
    }
    Ok(numbers)
}
