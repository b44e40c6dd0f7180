// What the words ask for.

/// A measurement.
#[derive(Clone, Copy, Debug, PartialEq, Eq)]
pub enum Job {
    /// Counts at small sizes, and no times.
    Counts,
    /// The pairwise equality function of so many pairs.
    Pairs(u32),
    /// So many steps of a counter with so many digits.
    Counter { digits: u32, steps: u32 },
}

/// The job that the words ask for; `None` where they are none that is known.
pub fn read_job(words: &[String]) -> Option<Job> {
    match words {
        [] => Some(Job::Counts),
        [name, count] if name.as_str() == "pairs" => Some(Job::Pairs(number(count)?)),
        [name, digits, steps] if name.as_str() == "counter" => Some(Job::Counter {
            digits: number(digits)?,
            steps: number(steps)?,
        }),
        _ => None,
    }
}

fn number(word: &String) -> Option<u32> {
    word.as_str().parse::<u32>().ok()
}
