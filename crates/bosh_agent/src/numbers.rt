ghost use Rattle.std.specs.Prelude.{◌≡◌, ◌==◌, IfOk, filter, nat_lt, not};
ghost use Rattle.bosh_agent.specs.Numbers.{has, with_number, without_number};

use crate::AgentFault;
use bosh_base::Seq;
use std::alloc::Global;

/// Whether a number is in a list.
pub fn has(numbers: &Seq<u64>, number: u64) -> bool
    ensures { result ≡ has number numbers.now }
{
    numbers.iter().any(|other| *other == number)
}

/// A list of rising numbers with one more, at its place.
pub fn with_number(alloc: Global, numbers: &Seq<u64>, number: u64) -> Result<Seq<u64>, AgentFault>
    ensures { IfOk result (λ list. list ≡ with_number number numbers.now) }
{
    let mut list = smaller(alloc, numbers.as_slice(), number)?;
    list.push(number)?;
    let mut greater = greater(alloc, numbers.as_slice(), number)?;
    list.append(&mut greater)?;
    Ok(Seq::from(list))
}

fn smaller(alloc: Global, numbers: &[u64], number: u64) -> Result<Vec<u64>, AgentFault>
    ensures { IfOk result (λ list. list.items ≡ filter (λ x. nat_lt x number) numbers.now) }
{
    let list = numbers
        .iter()
        .copied()
        .filter(|other| *other < number)
        .collect(alloc)?;
    Ok(list)
}

fn greater(alloc: Global, numbers: &[u64], number: u64) -> Result<Vec<u64>, AgentFault>
    ensures { IfOk result (λ list. list.items ≡ filter (λ x. nat_lt number x) numbers.now) }
{
    let list = numbers
        .iter()
        .copied()
        .filter(|other| number < *other)
        .collect(alloc)?;
    Ok(list)
}

fn others(alloc: Global, numbers: &[u64], number: u64) -> Result<Vec<u64>, AgentFault>
    ensures { IfOk result (λ list. list.items ≡ filter (λ x. not (x == number)) numbers.now) }
{
    let list = numbers
        .iter()
        .copied()
        .filter(|other| *other != number)
        .collect(alloc)?;
    Ok(list)
}

/// A list of numbers without one.
pub fn without_number(
    alloc: Global,
    numbers: &Seq<u64>,
    number: u64,
) -> Result<Seq<u64>, AgentFault>
    ensures { IfOk result (λ list. list ≡ without_number number numbers.now) }
{
    Ok(Seq::from(others(alloc, numbers.as_slice(), number)?))
}
