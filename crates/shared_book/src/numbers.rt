// Numbers in their order, mostly of one byte each.
ghost use Rattle.std.specs.Prelude.{◌≡◌, ◌+◌, ◌^◌, ◌<◌, ◌≤◌, ◌∷◌, ◌++◌, ◌↔◌, []};
ghost use Rattle.std.specs.Prelude.{length, IsSomeAnd, IsTrue, OnErr, OnOk, MatchOption, vec_capacity, vec_len};
ghost use Rattle.shared_book.specs.Inner.Numbers.{IsPacked, unpacked};
ghost use Rattle.shared_book.specs.Receipts.{numbers};

use crate::receipt::Receipt;
use std::alloc::{AllocError, Global};
use std::marker::Model;

/// Numbers in their order. One that is 1 to 255 greater than the one before it takes one byte.
#[derive(Drop)]
pub(crate) struct Numbers {
    // For each number how much greater it is than the one before it (the first than 0), or 0 for the next of `far`.
    steps: Vec<u8>,
    // The numbers that aren't 1 to 255 greater than the one before them.
    far: Vec<u64>,
    // The last number; 0 where there is none.
    last: u64,
}

impl Model for Numbers {
    ghost use Rattle.std.specs.Prelude.{ℕ, List};
    ghost use Rattle.shared_book.specs.Inner.Numbers.{IsPacked, unpacked};

    ghost Value = { List ℕ };

    ghost view = { λ n. unpacked 0 n.steps.items n.far.items };

    ghost invariant = { λ n. IsPacked 0 n.steps.items n.far.items n.last };
}

impl Numbers {
    pub(crate) fn new(alloc: Global) -> Numbers
        ensures { result ≡ [] }
    {
        Numbers {
            steps: Vec::new(alloc),
            far: Vec::new(alloc),
            last: 0,
        }
    }

    /// How many there are.
    pub(crate) fn len(&self) -> usize
        ensures value { result ≡ length self.now }
        ensures small { result < 2 ^ 63 }
    {
        self.steps.len()
    }

    /// The numbers, one after another.
    pub(crate) fn iter(&self) -> NumbersLeft<'_>
        ensures { result ≡ self.now }
    {
        NumbersLeft {
            before: 0,
            steps: self.steps.as_slice(),
            far: self.far.as_slice(),
        }
    }

    /// Adds the numbers of the receipts. Reserves room as if each were far from the one before it, so that it adds all or
    /// none.
    pub(crate) fn add_receipts(&mut self, receipts: &[Receipt]) -> Result<(), AllocError>
        ensures ok { OnOk result (self.new ≡ self.old ++ numbers receipts.now) }
        ensures err { OnErr result (self.new ≡ self.old) }
    {
        self.steps.reserve(receipts.len())?;
        self.far.reserve(receipts.len())?;
        for receipt in receipts {
            self.last = push(&mut self.steps, &mut self.far, self.last, receipt.number);
        }
        Ok(())
    }

    /// Adds other numbers, all or none.
    pub(crate) fn append(&mut self, other: &Numbers) -> Result<(), AllocError>
        ensures ok { OnOk result (self.new ≡ self.old ++ other.now) }
        ensures err { OnErr result (self.new ≡ self.old) }
    {
        self.steps.reserve(other.len())?;
        self.far.reserve(other.len())?;
        let mut left = other.iter();
        while let Some(number) = left.next() {
            self.last = push(&mut self.steps, &mut self.far, self.last, number);
        }
        Ok(())
    }

    /// Adds them to numbers that aren't packed.
    pub(crate) fn add_to(&self, all: &mut Vec<u64>) -> Result<(), AllocError>
        ensures { OnOk result (all.new.items ≡ all.old.items ++ self.now) }
    {
        all.reserve(self.len())?;
        let mut left = self.iter();
        while let Some(number) = left.next() {
            all.push(number)?;
        }
        Ok(())
    }

    /// Frees the memory that they don't need.
    pub(crate) fn shrink(&mut self)
        ensures { self.new ≡ self.old }
    {
        self.steps.shrink_to_fit();
        self.far.shrink_to_fit();
    }
}

// Adds a number after `last`, and gives it as the last one. Takes no memory.
fn push(steps: &mut Vec<u8>, far: &mut Vec<u64>, last: u64, number: u64) -> u64
    requires packed { IsPacked 0 steps.old.items far.old.items last }
    requires steps_room { vec_len steps.old < vec_capacity steps.old }
    requires far_room { vec_len far.old < vec_capacity far.old }
    ensures packed { IsPacked 0 steps.new.items far.new.items result }
    ensures numbers { unpacked 0 steps.new.items far.new.items
        ≡ unpacked 0 steps.old.items far.old.items ++ number ∷ [] }
    ensures steps_capacity { vec_capacity steps.new ≡ vec_capacity steps.old }
    ensures steps_length { vec_len steps.new ≡ vec_len steps.old + 1 }
    ensures far_capacity { vec_capacity far.new ≡ vec_capacity far.old }
    ensures far_length { vec_len far.new ≤ vec_len far.old + 1 }
    ensures near { last < number → number ≤ last + 255 → far.new.items ≡ far.old.items }
{
    let step = step_to(last, number);
    steps.push_reserved(step);
    if step == 0 {
        far.push_reserved(number);
    }
    number
}

// By how much the number is greater than the one before it; 0 where that isn't 1 to 255.
fn step_to(before: u64, number: u64) -> u8
    ensures step { 0 < result → before + result ≡ number }
    ensures near { before < number → number ≤ before + 255 → 0 < result }
{
    match number.checked_sub(before) {
        Some(step) => u8::try_from(step).unwrap_or(0),
        None => 0,
    }
}

/// The numbers that are still to come.
#[derive(Drop)]
pub(crate) struct NumbersLeft<'a> {
    before: u64,
    steps: &'a [u8],
    far: &'a [u64],
}

impl<'a> Model for NumbersLeft<'a> {
    ghost use Rattle.std.specs.Prelude.{ℕ, List};
    ghost use Rattle.shared_book.specs.Inner.Numbers.{IsPacked, unpacked};

    ghost Value = { List ℕ };

    ghost view = { λ n. unpacked n.before n.steps.now n.far.now };

    ghost invariant = { λ n. (last : ℕ) × IsPacked n.before n.steps.now n.far.now last };
}

impl<'a> NumbersLeft<'a> {
    /// The next of them.
    pub(crate) fn next(&mut self) -> Option<u64>
        ensures { MatchOption result (self.old ≡ []) (λ n. self.old ≡ n ∷ self.new) }
    {
        let Some((step, steps)) = self.steps.split_first() else {
            return None;
        };
        self.steps = steps;
        if *step == 0 {
            let Some((number, far)) = self.far.split_first() else {
                unreachable!()
            };
            let number = *number;
            self.far = far;
            self.before = number;
            return Some(number);
        }
        self.before += u64::from(*step);
        Some(self.before)
    }
}

/// Whether the number isn't above the one before it.
pub(crate) fn is_fall(before: Option<u64>, number: u64) -> bool
    ensures { IsTrue result ↔ IsSomeAnd before (λ b. number ≤ b) }
{
    before.is_some_and(|before| number <= before)
}
