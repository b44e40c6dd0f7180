ghost use Rattle.c_step.specs.CStep.{IsCStep};
ghost use Rattle.c_step.specs.StepOnce.{IsCStep-prop};
ghost use Rattle.c_step.specs.Views.{step_from};

use crate::statements::CStat;
use argos_base::Names;

/// A step function that has a spelling in C: at most 16,384 inputs and 16,384 outputs, 1 to 200,000,000 words and bits, 1 or more
/// registers, all numbers name what exists, a bit, or a word that is no register, is read only behind a statement that gives it a value,
/// and each output is given one.
#[derive(Debug, Drop)]
pub struct CStep {
    pub names: Names,
    /// How many words there are.
    pub words: u32,
    /// How many bits there are.
    pub bits: u32,
    /// The initial code of each register; the registers are the first words.
    pub init: Vec<u16>,
    pub stats: Vec<CStat>,
    ghost kept: { IsCStep (step_from names words bits init.items stats.items) } by { IsCStep-prop (step_from names words bits init.items stats.items) },
}
