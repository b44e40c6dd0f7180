//! Measures the arena and the stepper of the equations. It is no part of the product.
//!
//! `argos_bench pairs N` makes the pairwise equality function of N pairs of variables and times that, and
//! `argos_bench counter DIGITS STEPS` times the steps of a binary counter. With no words it prints counts at small sizes, and no
//! times.
#![tactic(auto)]

mod counter;
mod failure;
mod pairs;
mod words;

ghost use Rattle.std.specs.Prelude.{◌≤◌};

use counter::{MOST_DIGITS, begin, run};
use dd_core::Arena;
use dd_ops::nodes;
use failure::Failure;
use pairs::{MOST_PAIRS, pairwise_equality};
use std::alloc::Global;
use std::env;
use std::time::Instant;
use words::{Job, read_job};

/// The greatest budget of an arena.
const MOST_NODES: u32 = 16_777_216;

fn main(rt: HostRuntime) -> Result<(), Failure> {
    let words = env::args(&rt)?.skip(1).collect::<Vec<String>>(rt.alloc())?;
    match read_job(&words) {
        Some(Job::Counts) => {
            let (held, under) = count_nodes(rt.alloc(), 4)?;
            println!(rt; "pairs 4: {held} nodes held, {under} of the result")?;
            let carries = count_carries(rt.alloc(), 3, 20)?;
            println!(rt; "counter 3: 20 steps, {carries} carries")?;
            Ok(())
        }
        Some(Job::Pairs(count)) if count <= MOST_PAIRS => {
            let mut arena = Arena::new(rt.alloc(), 2 * count, MOST_NODES)?;
            let start = Instant::now(&rt)?;
            let equality = pairwise_equality(&mut arena, count)?;
            let micros = start.elapsed(&rt)?.as_micros();
            let under = nodes(rt.alloc(), &arena, equality)?.len();
            println!(rt; "pairs {count}: {under} nodes, {micros} microseconds")?;
            Ok(())
        }
        Some(Job::Counter { digits, steps }) if digits <= MOST_DIGITS => {
            let mut stepper = begin(rt.alloc(), digits)?;
            let start = Instant::now(&rt)?;
            let carries = run(rt.alloc(), &mut stepper, steps)?;
            let micros = start.elapsed(&rt)?.as_micros();
            println!(rt;
                "counter {digits}: {steps} steps, {carries} carries, {micros} microseconds"
            )?;
            Ok(())
        }
        _ => Err(Failure::Words),
    }
}

/// How many nodes an arena holds once it made the pairwise equality function, and how many of them are the function's.
fn count_nodes(alloc: Global, count: u32) -> Result<(u32, usize), Failure>
    requires { count ≤ 512 }
{
    let mut arena = Arena::new(alloc, 2 * count, MOST_NODES)?;
    let equality = pairwise_equality(&mut arena, count)?;
    Ok((arena.used(), nodes(alloc, &arena, equality)?.len()))
}

/// How many of so many steps of a counter have a carry out of the last digit.
fn count_carries(alloc: Global, digits: u32, steps: u32) -> Result<u32, Failure>
    requires { digits ≤ 100000 }
{
    let mut stepper = begin(alloc, digits)?;
    run(alloc, &mut stepper, steps)
}
