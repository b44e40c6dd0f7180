ghost use Rattle.std.specs.Prelude.{◌≡◌, ℕ, ◌+◌, ◌<◌, ◌^◌, suc, length, map, All, IfOk, slice_index_or};
ghost use Rattle.std.specs.List.{range_with_len};
ghost use Rattle.eqn_core.specs.Views.{equations_from};
ghost use Rattle.eqn_core.specs.Equations.{bit_count, word_count};
ghost use Rattle.eqn_core.specs.Orderable.{IsOrderable};
ghost use Rattle.eqn_completion.specs.Moving.{put, given_table, given_numbers};
ghost use Rattle.eqn_completion.specs.Sorted.{first_numbers};
ghost use Rattle.eqn_sort.specs.Numbers.{numbers_from};

use argos_base::OutOfMemory;
use eqn_core::{System, count_words};
use std::alloc::Global;

/// New numbers, by old ones, and the next free ones.
#[derive(Debug, Drop)]
pub struct Tables {
    /// For each bit of the system its new number. A bit that isn't known yet may have any.
    pub bits: Vec<u32>,
    /// For each word of the system its new number.
    pub words: Vec<u32>,
    /// The number that the next bit gets.
    pub next_bit: u32,
    /// The number that the next word gets.
    pub next_word: u32,
}

impl Tables {
    /// Those from which a system without cyclic bits is sorted: inputs and registers keep their numbers, and lines get those behind.
    #[tactic(auto, using(crate::proofs::Entries::entries))]
    pub fn first(alloc: Global, system: &System) -> Result<Tables, OutOfMemory>
        requires { IsOrderable (equations_from system.now) }
        ensures numbers { IfOk result (λ t. numbers_from t ≡ first_numbers (equations_from system.now)) }
        ensures bits { IfOk result (λ t. length t.bits.items ≡ bit_count (equations_from system.now)) }
        ensures words { IfOk result (λ t. length t.words.items ≡ word_count (equations_from system.now)) }
    {
        let registers = system.init.len() as u32;
        let words = count_words(&system.lines);
        let bits = system.lines.len() - words;
        Ok(Tables {
            bits: numbers_below(alloc, system.inputs + bits as u32)?,
            words: numbers_below(alloc, registers + words as u32)?,
            next_bit: system.inputs,
            next_word: registers,
        })
    }

    /// Those from which a system is moved whose given bits get the numbers from `first` on: inputs and registers keep their numbers,
    /// and lines get those behind. Of a bit that is given twice the first place counts.
    pub fn with_given(
        alloc: Global,
        system: &System,
        given: &[u32],
        first: u32,
    ) -> Result<Tables, OutOfMemory>
        requires orderable { IsOrderable (equations_from system.now) }
        requires given { All (λ k. k < bit_count (equations_from system.now)) given.now }
        requires room { first + length given.now < 2 ^ 32 }
        ensures numbers { IfOk result (λ t. numbers_from t ≡ given_numbers (equations_from system.now) given.now first) }
        ensures bits { IfOk result (λ t. length t.bits.items ≡ bit_count (equations_from system.now)) }
        ensures words { IfOk result (λ t. length t.words.items ≡ word_count (equations_from system.now)) }
    {
        let mut tables = Tables::first(alloc, system)?;
        number_given(&mut tables.bits, given, first);
        tables.next_bit = first + given.len() as u32;
        Ok(tables)
    }

    /// The new numbers of these bits.
    pub fn new_bits(&self, alloc: Global, bits: &[u32]) -> Result<Vec<u32>, OutOfMemory>
        requires { All (λ k. k < length self.now.bits.items) bits.now }
        ensures { IfOk result (λ v. v.items ≡ map (numbers_from self.now).bits bits.now) }
    {
        Ok(new_numbers(alloc, &self.bits, bits)?)
    }

    /// The new numbers of these words.
    pub fn new_words(&self, alloc: Global, words: &[u32]) -> Result<Vec<u32>, OutOfMemory>
        requires { All (λ k. k < length self.now.words.items) words.now }
        ensures { IfOk result (λ v. v.items ≡ map (numbers_from self.now).words words.now) }
    {
        Ok(new_numbers(alloc, &self.words, words)?)
    }

    /// The new number of a bit.
    pub(crate) fn bit(&self, bit: u32) -> u32
        requires { bit < length self.now.bits.items }
        ensures { result ≡ (numbers_from self.now).bits bit }
    {
        self.bits[bit as usize]
    }

    /// The new number of a word.
    pub(crate) fn word(&self, word: u32) -> u32
        requires { word < length self.now.words.items }
        ensures { result ≡ (numbers_from self.now).words word }
    {
        self.words[word as usize]
    }

    /// Gives a bit the next free number.
    #[tactic(auto, using(crate::proofs::Entries::entries))]
    pub(crate) fn enter_bit(&mut self, bit: u32)
        requires bit { bit < length self.old.bits.items }
        requires room { self.old.next_bit + 1 < 2 ^ 32 }
        ensures numbers { let t = numbers_from self.old in numbers_from self.new ≡ record { bits = put t.bits bit t.next_bit; words = t.words; next_bit = suc t.next_bit; next_word = t.next_word } }
        ensures bits { length self.new.bits.items ≡ length self.old.bits.items }
        ensures words { length self.new.words.items ≡ length self.old.words.items }
    {
        self.bits[bit as usize] = self.next_bit;
        self.next_bit += 1;
    }

    /// Gives a word the next free number.
    #[tactic(auto, using(crate::proofs::Entries::entries))]
    pub(crate) fn enter_word(&mut self, word: u32)
        requires word { word < length self.old.words.items }
        requires room { self.old.next_word + 1 < 2 ^ 32 }
        ensures numbers { let t = numbers_from self.old in numbers_from self.new ≡ record { bits = t.bits; words = put t.words word t.next_word; next_bit = t.next_bit; next_word = suc t.next_word } }
        ensures bits { length self.new.bits.items ≡ length self.old.bits.items }
        ensures words { length self.new.words.items ≡ length self.old.words.items }
    {
        self.words[word as usize] = self.next_word;
        self.next_word += 1;
    }
}

// Gives these places of a table that changes nothing the numbers from `first` on, the last one first.
#[tactic(auto, using(crate::proofs::Entries::entries))]
fn number_given(table: &mut [u32], given: &[u32], first: u32)
    requires given { All (λ k. k < length table.old) given.now }
    requires room { first + length given.now < 2 ^ 32 }
    requires same { (k : ℕ) → slice_index_or table.old k k ≡ k }
    ensures { (k : ℕ) → slice_index_or table.new k k ≡ given_table given.now first k }
{
    let mut place = given.len();
    while place > 0 {
        place -= 1;
        table[given[place] as usize] = first + place as u32;
    }
}

// The new numbers of these.
#[tactic(auto, using(crate::proofs::Entries::entries))]
fn new_numbers(alloc: Global, table: &[u32], numbers: &[u32]) -> Result<Vec<u32>, OutOfMemory>
    requires { All (λ k. k < length table.now) numbers.now }
    ensures { IfOk result (λ v. v.items ≡ map (λ k. slice_index_or table.now k k) numbers.now) }
{
    let mut new_numbers = Vec::with_capacity(alloc, numbers.len())?;
    for number in numbers {
        new_numbers.push(table[*number as usize])?;
    }
    Ok(new_numbers)
}

// All numbers below a count.
fn numbers_below(alloc: Global, count: u32) -> Result<Vec<u32>, OutOfMemory>
    ensures { IfOk result (λ v. v.items ≡ range_with_len 0 count) }
{
    let mut numbers = Vec::with_capacity(alloc, count as usize)?;
    for number in 0..count {
        numbers.push(number)?;
    }
    Ok(numbers)
}
