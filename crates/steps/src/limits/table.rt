// Makes a table of limits, and tells the step of a number.
ghost use Rattle.std.specs.Prelude.{◌≡◌, ◌<◌, nat_le, position, IfSome};
ghost use Rattle.steps.specs.Limits.{all_in_range, rises, lawful_limits};
ghost use Rattle.steps.specs.Steps.{step_of, OneStep};
ghost use Rattle.steps.specs.View.{limits_of, MadeFrom, RightlyTaken};

use crate::fault::StepFault;
use crate::limits::{Limits, MAX_LIMIT, MAX_LIMITS};
use crate::step::Step;
use rows::Row;

impl Limits {
    // A table of these limits, if they make one.
    #[tactic(auto, using(crate::proofs::Tables::table_lawful))]
    pub fn new(limits: &[u64]) -> Result<Limits, StepFault>
        ensures table_or_refusal { MadeFrom result limits.now }
        ensures taken_just_where_a_table { RightlyTaken result limits.now }
    {
        if !are_lawful(limits) {
            return Err(StepFault::BadLimits);
        }
        let limits = Row::from_slice(0, limits).ok_or(StepFault::BadLimits)?;
        Ok(Limits { limits })
    }

    // The step of a number: the first whose limit is not smaller.
    pub fn step_of(&self, n: u64) -> Step
        ensures first_limit_not_smaller { result ≡ step_of (limits_of self.now) n }
        ensures within_it_and_past_all_before { OneStep (limits_of self.now) n result }
    {
        self.first_inside(n)
            .map_or(Step::Beyond(n), |i| Step::At(i as u8 + 1))
    }

    // The index of the first limit that is not smaller than a number.
    fn first_inside(&self, n: u64) -> Option<usize>
        ensures first { result ≡ position (λ l. nat_le n l) (limits_of self.now) }
        ensures few { IfSome result (λ i. i < 8) }
    {
        self.limits.as_slice().iter().position(|limit| n <= *limit)
    }
}

// Whether every limit is in range.
fn all_in_range(limits: &[u64]) -> bool
    ensures all_within_the_bounds { result ≡ all_in_range limits.now }
{
    limits.iter().all(|limit| (1..=MAX_LIMIT).contains(limit))
}

// Whether each limit is greater than the one before.
fn rise(limits: &[u64]) -> bool
    ensures each_greater { result ≡ rises limits.now }
{
    limits.is_sorted_by(|a, b| a < b)
}

// Whether the limits make a table.
fn are_lawful(limits: &[u64]) -> bool
    ensures lawful { result ≡ lawful_limits limits.now }
{
    (1..=MAX_LIMITS).contains(&limits.len()) && all_in_range(limits) && rise(limits)
}

#[cfg(test)]
mod tests {
    use super::*;
    use std::test::Fail;

    #[test]
    fn refuses_what_is_no_table(rt: HostRuntime) {
        assert!(rt; Limits::new(&[]).is_err());
        assert!(rt; Limits::new(&[1]).is_ok());
        assert!(rt; Limits::new(&[1, 2, 3, 4, 5, 6, 7, 8]).is_ok());
        assert!(rt; Limits::new(&[1, 2, 3, 4, 5, 6, 7, 8, 9]).is_err());
        assert!(rt; Limits::new(&[0, 1]).is_err());
        assert!(rt; Limits::new(&[8_796_093_022_207]).is_ok());
        assert!(rt; Limits::new(&[8_796_093_022_208]).is_err());
        assert!(rt; Limits::new(&[5, 5]).is_err());
        assert!(rt; Limits::new(&[5, 7, 6]).is_err());
        assert_eq!(rt; StepFault::BadLimits.number(), 15);
    }

    #[test]
    fn tells_the_first_limit_that_is_not_smaller(rt: HostRuntime) -> Result<(), Fail> {
        let Ok(limits) = Limits::new(&[300_000, 1_000_000]) else {
            return Err(Fail::new("no table"));
        };
        assert_eq!(rt; limits.step_of(0), Step::At(1));
        assert_eq!(rt; limits.step_of(300_000), Step::At(1));
        assert_eq!(rt; limits.step_of(300_001), Step::At(2));
        assert_eq!(rt; limits.step_of(1_000_000), Step::At(2));
        assert_eq!(rt; limits.step_of(1_000_001), Step::Beyond(1_000_001));
        Ok(())
    }
}
