//! Polynomials with coefficients of 64 bits.
ghost use Rattle.std.specs.Prelude.{◌≡◌, ◌+◌, ◌*◌, ◌≤◌, ◌^◌, ◌↔◌, if◌then◌else◌};
ghost use Rattle.std.specs.Prelude.{nat_le, [], ◌∷◌, Some, None, slice_index, IfOk, IfSome, IsNone};
ghost use Rattle.std.specs.Option.{option_map};
ghost use Rattle.code_rules.specs.Polynomial.{constant, plus, times, times_size, value, as_printed};
ghost use Rattle.code_rules.specs.Costs.{is_empty};
ghost use Rattle.template_code.specs.declared.limits.TheConstants.{MAX_COEFFICIENT};
ghost use Rattle.code_verifier.specs.Inner.Limited.{within};

use std::alloc::{AllocError, Global};
use std::marker::Model;
use template_code::limits::MAX_COEFFICIENT;

/// A polynomial in the size of a request's data, seen as the list of its coefficients, the constant first.
#[derive(Debug, Drop)]
pub struct Polynomial {
    coefficients: Vec<u64>,
}

impl Model for Polynomial {
    ghost use Rattle.std.specs.Prelude.{List, ℕ};

    ghost Value = { List ℕ };

    ghost view = { λ p. p.coefficients.items };
}

impl Polynomial {
    /// The list of a polynomial that is zero.
    pub fn empty(alloc: Global) -> Polynomial
        ensures { result ≡ [] }
    {
        Polynomial {
            coefficients: Vec::new(alloc),
        }
    }

    /// A number that doesn't depend on the size.
    pub fn constant(alloc: Global, number: u64) -> Result<Polynomial, AllocError>
        ensures { IfOk result (λ p. p ≡ constant number) }
    {
        let mut coefficients = Vec::new(alloc);
        if number > 0 {
            coefficients.push(number)?;
        }
        Ok(Polynomial { coefficients })
    }

    /// The size itself.
    pub fn size(alloc: Global) -> Result<Polynomial, AllocError>
        ensures { IfOk result (λ p. p ≡ 0 ∷ 1 ∷ []) }
    {
        Ok(Polynomial {
            coefficients: vec![in alloc; 0, 1]?,
        })
    }

    /// The coefficients, the constant first.
    pub fn coefficients(&self) -> &[u64]
        ensures { result.now ≡ self.now }
    {
        self.coefficients.as_slice()
    }

    pub fn is_zero(&self) -> bool
        ensures { result ≡ is_empty self.now }
    {
        self.coefficients.is_empty()
    }

    /// The list as it is printed, which has a coefficient: a polynomial that is zero is `[0]`.
    pub fn into_printed(self) -> Result<Polynomial, AllocError>
        ensures { IfOk result (λ p. p ≡ as_printed self) }
    {
        let mut coefficients = self.coefficients;
        if coefficients.is_empty() {
            coefficients.push(0)?;
        }
        Ok(Polynomial { coefficients })
    }

    /// The size times the polynomial.
    pub fn times_size(self) -> Result<Polynomial, AllocError>
        ensures { IfOk result (λ product. product ≡ times_size self) }
    {
        let mut coefficients = self.coefficients;
        if !coefficients.is_empty() {
            coefficients.insert(0, 0)?;
        }
        Ok(Polynomial { coefficients })
    }

    /// The sum; none if a coefficient of it is too large.
    pub fn plus(&self, alloc: Global, other: &Polynomial) -> Result<Option<Polynomial>, AllocError>
        ensures { IfOk result (λ sum. sum ≡ within (plus self.now other.now)) }
    {
        let coefficients = sum(
            alloc,
            self.coefficients.as_slice(),
            other.coefficients.as_slice(),
        )?;
        Ok(coefficients.map(|coefficients| Polynomial { coefficients }))
    }

    /// That many times the polynomial; none if a coefficient is too large. It is summed up, since no result
    /// grows more than sixfold.
    pub fn times(&self, alloc: Global, count: u64) -> Result<Option<Polynomial>, AllocError>
        ensures { IfOk result (λ product. product ≡ within (times count self.now)) }
    {
        let mut product = Polynomial::empty(alloc);
        for done in 0..count {
            match self.plus(alloc, &product)? {
                None => return Ok(None),
                Some(sum) => product = sum,
            }
        }
        Ok(Some(product))
    }

    /// The value, or none where it exceeds 128 bits.
    pub fn value_at(&self, size: u64) -> Option<u128>
        ensures value { IfSome result (λ at. at ≡ value self.now size) }
        ensures none { IsNone result ↔ (2 ^ 128 ≤ value self.now size) }
    {
        value_of(self.coefficients.as_slice(), size)
    }
}

pub fn is_within_limit(coefficient: u64) -> bool
    ensures { result ≡ nat_le coefficient MAX_COEFFICIENT }
{
    coefficient <= MAX_COEFFICIENT
}

// The sum, coefficient by coefficient; none if one is too large.
fn sum(alloc: Global, left: &[u64], right: &[u64]) -> Result<Option<Vec<u64>>, AllocError>
    ensures { IfOk result
        (λ sum. option_map (λ v. v.items) sum ≡ within (plus left.now right.now)) }
{
    let mut sum = Vec::new(alloc);
    for index in 0..left.len().max(right.len()) {
        match limited_sum(coefficient(left, index), coefficient(right, index)) {
            Some(both) => sum.push(both)?,
            None => return Ok(None),
        }
    }
    Ok(Some(sum))
}

// The sum of two coefficients, unless it is too large.
fn limited_sum(left: u64, right: u64) -> Option<u64>
    ensures { result
        ≡ (if nat_le (left + right) MAX_COEFFICIENT then Some (left + right) else None) }
{
    match left.checked_add(right) {
        Some(both) if both <= MAX_COEFFICIENT => Some(both),
        _ => None,
    }
}

// The coefficient with that index, which is 0 after the last one.
fn coefficient(coefficients: &[u64], index: usize) -> u64
    ensures { result ≡ slice_index coefficients.now index }
{
    coefficients.get(index).copied().unwrap_or(0)
}

// By Horner's rule, from the last coefficient on.
fn value_of(coefficients: &[u64], size: u64) -> Option<u128>
    ensures value { IfSome result (λ at. at ≡ value coefficients.now size) }
    ensures none { IsNone result ↔ (2 ^ 128 ≤ value coefficients.now size) }
{
    match coefficients.split_first() {
        None => Some(0),
        Some((constant, others)) => next_value(*constant, value_of(others, size)?, size),
    }
}

// The value with one more coefficient before the others.
fn next_value(constant: u64, others: u128, size: u64) -> Option<u128>
    ensures value { IfSome result (λ at. at ≡ constant + size * others) }
    ensures none { IsNone result ↔ (2 ^ 128 ≤ constant + size * others) }
{
    u128::from(size)
        .checked_mul(others)?
        .checked_add(u128::from(constant))
}
