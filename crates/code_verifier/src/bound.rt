//! Bounds of what slots print as, and of what instructions cost.
ghost use Rattle.std.specs.Prelude.{◌≡◌, not, IfOk};
ghost use Rattle.code_rules.specs.Bounds.{at_most, all_data, item_data, plus_bound, times_bound, of_turns};
ghost use Rattle.code_rules.specs.Costs.{is_empty};
ghost use Rattle.code_verifier.specs.Inner.Limited.{bound_within};

use crate::polynomial::Polynomial;
use std::alloc::{AllocError, Global};
use std::marker::Model;

/// A number that is `alone(n) + per(n) * m` at most, with n the size of a request's data and m that of the item of the
/// innermost loop.
#[derive(Debug, Drop)]
pub struct Bound {
    alone: Polynomial,
    per: Polynomial,
}

impl Model for Bound {
    ghost use Rattle.code_rules.specs.Bounds.{Bound};

    ghost Value = { Bound };

    ghost view = { λ b. record { alone = b.alone; per = b.per } };
}

impl Bound {
    pub fn zero(alloc: Global) -> Bound
        ensures { result ≡ at_most 0 }
    {
        Bound {
            alone: Polynomial::empty(alloc),
            per: Polynomial::empty(alloc),
        }
    }

    pub fn at_most(alloc: Global, number: u64) -> Result<Bound, AllocError>
        ensures { IfOk result (λ bound. bound ≡ at_most number) }
    {
        Ok(Bound {
            alone: Polynomial::constant(alloc, number)?,
            per: Polynomial::empty(alloc),
        })
    }

    /// The size of all data.
    pub fn all_data(alloc: Global) -> Result<Bound, AllocError>
        ensures { IfOk result (λ bound. bound ≡ all_data) }
    {
        Ok(Bound {
            alone: Polynomial::size(alloc)?,
            per: Polynomial::empty(alloc),
        })
    }

    /// The size of the item.
    pub fn item_data(alloc: Global) -> Result<Bound, AllocError>
        ensures { IfOk result (λ bound. bound ≡ item_data) }
    {
        Ok(Bound {
            alone: Polynomial::empty(alloc),
            per: Polynomial::constant(alloc, 1)?,
        })
    }

    pub fn depends_on_item(&self) -> bool
        ensures { result ≡ not (is_empty self.now.per) }
    {
        !self.per.is_zero()
    }

    /// The part that doesn't depend on the item.
    pub fn into_alone(self) -> Polynomial
        ensures { result ≡ self.alone }
    {
        self.alone
    }

    /// The sum; none if a coefficient of it is too large.
    pub fn plus(&self, alloc: Global, other: &Bound) -> Result<Option<Bound>, AllocError>
        ensures { IfOk result (λ sum. sum ≡ bound_within (plus_bound self.now other.now)) }
    {
        let alone = self.alone.plus(alloc, &other.alone)?;
        let per = self.per.plus(alloc, &other.per)?;
        match (alone, per) {
            (Some(alone), Some(per)) => Ok(Some(Bound { alone, per })),
            _ => Ok(None),
        }
    }

    /// That many times the bound; none if a coefficient is too large.
    pub fn times(&self, alloc: Global, count: u64) -> Result<Option<Bound>, AllocError>
        ensures { IfOk result (λ product. product ≡ bound_within (times_bound count self.now)) }
    {
        let alone = self.alone.times(alloc, count)?;
        let per = self.per.times(alloc, count)?;
        match (alone, per) {
            (Some(alone), Some(per)) => Ok(Some(Bound { alone, per })),
            _ => Ok(None),
        }
    }

    /// What all turns of a loop cost, where one turn costs that much; none if a coefficient is too large.
    #[tactic(auto, using(crate::proofs::SumFacts::fits_times_size))]
    pub fn of_turns(&self, alloc: Global, is_part: bool) -> Result<Option<Bound>, AllocError>
        ensures { IfOk result (λ turns. turns ≡ bound_within (of_turns is_part self.now)) }
    {
        let none = Polynomial::empty(alloc);
        match self.alone.plus(alloc, &self.per)? {
            None => Ok(None),
            Some(turn) if is_part => Ok(Some(Bound {
                alone: none,
                per: turn,
            })),
            Some(turn) => Ok(Some(Bound {
                alone: turn.times_size()?,
                per: none,
            })),
        }
    }
}
