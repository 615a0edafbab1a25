// A keeper of the order by clocks, over tables that it is lent.
use crate::plain::PlainCounts;
use event::Intake;
use stamp::Clock;

pub mod keeping;
pub mod tables;

// What was told, and a clock for each thread and for each object.
#[derive(Drop)]
pub struct Clocks<'a> {
    plain: PlainCounts,
    told: Intake,
    threads: &'a mut [Clock],
    objects: &'a mut [Clock],
}
