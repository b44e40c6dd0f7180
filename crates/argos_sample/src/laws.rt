//! What is always so of samples. Each function has its laws as its contract, and does nothing.
ghost use Rattle.argos_sample.specs.Laws.{OneNumberIsEmitted, SamplesAreGood, SamplesAreModules, SamplesAreNotRefused, SamplesAreShort, SomeNumberIsEmitted};

/// The text of a sample means its module.
pub fn samples_are_modules()
    ensures { SamplesAreModules }
{}

/// The text of a sample is short enough to be read.
pub fn samples_are_short()
    ensures { SamplesAreShort }
{}

/// The module of a sample is acceptable, and no local depends on itself; so it is never refused, whatever the budget.
pub fn samples_are_good()
    ensures good { SamplesAreGood }
    ensures accepted { SamplesAreNotRefused }
{}

/// In a number of instants, in each of which its input is present, a sample emits its output a certain number of times: one number is
/// right, and no other.
pub fn samples_emit_one_number()
    ensures one { OneNumberIsEmitted }
    ensures some { SomeNumberIsEmitted }
{}
