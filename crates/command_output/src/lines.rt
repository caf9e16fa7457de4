//! Lines with budgets.
ghost use Rattle.std.specs.Prelude.{◌≡◌, ◌++◌, IfOk, OnOk, string_bytes};
ghost use Rattle.command_output.specs.Lines.{next_number, numbers_text, measure_line};

use itoa::Buffer;
use std::alloc::{AllocError, Global};

/// What was taken beside the coefficients of its budget, as `steps 5 of [5]`, and a line feed.
pub fn measure_line(
    alloc: Global,
    name: &str,
    taken: u128,
    budget: &[u64],
) -> Result<String, AllocError>
    ensures { IfOk result (λ line. string_bytes line ≡ measure_line name.now taken budget.now) }
{
    let numbers = numbers(alloc, budget)?;
    format!(in alloc; "{name} {taken} of {numbers}\n")
}

fn numbers(alloc: Global, list: &[u64]) -> Result<String, AllocError>
    ensures { IfOk result (λ text. string_bytes text ≡ numbers_text list.now) }
{
    match list {
        [] => String::from_str(alloc, "[]"),
        [first, rest @ ..] => {
            let mut text = format!(in alloc; "[{first}")?;
            for number in rest {
                push_next(&mut text, u128::from(*number))?;
            }
            text.push_str("]")?;
            Ok(text)
        }
    }
}

/// Numbers in brackets, as `[6,1]`.
pub fn total_text(alloc: Global, list: &[u128]) -> Result<String, AllocError>
    ensures { IfOk result (λ text. string_bytes text ≡ numbers_text list.now) }
{
    match list {
        [] => String::from_str(alloc, "[]"),
        [first, rest @ ..] => {
            let mut text = format!(in alloc; "[{first}")?;
            for number in rest {
                push_next(&mut text, *number)?;
            }
            text.push_str("]")?;
            Ok(text)
        }
    }
}

fn push_next(text: &mut String, number: u128) -> Result<(), AllocError>
    ensures { OnOk result (string_bytes text.new ≡ string_bytes text.old ++ next_number number) }
{
    let mut digits = Buffer::new();
    text.push_str(",")?;
    text.push_str(digits.format(number))
}
