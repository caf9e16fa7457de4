//! The values of the machine's stack that aren't texts. They borrow from the request's data.
ghost use Rattle.std.specs.Prelude.{◌≡◌, ◌++◌, OnOk, pos, string_bytes};
ghost use Rattle.std.specs.Fmt.{signed_decimal};
ghost use Rattle.data_tree.specs.Print.{print, is_not_empty};
ghost use Rattle.data_tree.specs.Tree.{view};
ghost use Rattle.template_machine.specs.Inner.Slots.{found_view};

use crate::append::push_ascii;
use data_tree::data::Data;
use data_tree::parts::first_text;
use std::alloc::{AllocError, Global};

/// A value that isn't a text.
#[derive(Clone, Copy)]
pub enum Value<'a> {
    /// A value of the request's data; `None` is Nothing.
    Datum(Option<&'a Data>),
    Number(i64),
    Truth(bool),
}

impl<'a> Value<'a> {
    ghost use Rattle.helper_set.specs.Values.{text_of, truth_of};
    ghost use Rattle.template_machine.specs.Inner.Slots.{value_view};

    /// Whether it counts as true. A text, as most values are, is asked here, without a call.
    #[inline(always)]
    pub fn is_true(self) -> bool
        ensures { result ≡ truth_of (value_view self.entry) }
    {
        match self {
            Value::Datum(Some(Data::Text(text))) => !text.as_str().is_empty(),
            Value::Datum(Some(found)) => found.is_true(),
            Value::Datum(None) => false,
            Value::Number(number) => number != 0,
            Value::Truth(truth) => truth,
        }
    }

    /// Whether it prints as a text that isn't empty.
    #[tactic(auto, using(crate::proofs::Printed::truth_prints, crate::proofs::Printed::number_prints))]
    pub fn prints(self) -> bool
        ensures { result ≡ is_not_empty (text_of (value_view self.entry)) }
    {
        match self {
            Value::Datum(Some(found)) => data_prints(found),
            Value::Datum(None) => false,
            Value::Number(_) | Value::Truth(_) => true,
        }
    }

    /// Appends what it prints as.
    #[inline(always)]
    pub fn print_into(self, alloc: Global, out: &mut String) -> Result<(), AllocError>
        ensures { OnOk result (string_bytes out.new ≡ string_bytes out.old ++ text_of (value_view self.entry)) }
    {
        match self {
            Value::Datum(found) => print_datum(alloc, found, out),
            Value::Number(number) => print_number(number, out),
            Value::Truth(true) => out.push_str("true"),
            Value::Truth(false) => out.push_str("false"),
        }
    }
}

// Appends a number. Apart, so that what prints no number needs no room for its digits. One digit, as the first indexes
// are, needs no such room either.
#[inline(never)]
#[tactic(auto, using(std::proofs::lemmas::Fmt::decimal_digit))]
fn print_number(number: i64, out: &mut String) -> Result<(), AllocError>
    ensures { OnOk result (string_bytes out.new ≡ string_bytes out.old ++ signed_decimal number) }
{
    if 0 <= number && number < 10 {
        return push_ascii(48 + number as u8, out);
    }
    print_digits(number, out)
}

/// Appends an index. Apart, as a number.
#[inline(never)]
#[tactic(auto, using(std::proofs::lemmas::Fmt::decimal_digit))]
pub fn print_index(index: usize, out: &mut String) -> Result<(), AllocError>
    ensures { OnOk result (string_bytes out.new ≡ string_bytes out.old ++ signed_decimal (pos index)) }
{
    if index < 10 {
        return push_ascii(48 + index as u8, out);
    }
    let mut buffer = itoa::Buffer::new();
    out.push_str(buffer.format(index))
}

// Appends a number of any length.
#[inline(never)]
fn print_digits(number: i64, out: &mut String) -> Result<(), AllocError>
    ensures { OnOk result (string_bytes out.new ≡ string_bytes out.old ++ signed_decimal number) }
{
    let mut buffer = itoa::Buffer::new();
    out.push_str(buffer.format(number))
}

/// Appends what a value of the data prints as. A text, as most are, is appended here, without a call.
#[inline(always)]
pub fn print_datum(alloc: Global, found: Option<&Data>, out: &mut String) -> Result<(), AllocError>
    ensures { OnOk result (string_bytes out.new ≡ string_bytes out.old ++ print (found_view found.entry)) }
{
    match found {
        Some(Data::Text(text)) => out.push_str(text.as_str()),
        Some(found) => found.print_into(alloc, out),
        None => Ok(()),
    }
}

#[tactic(auto, using(crate::proofs::Printed::truth_prints))]
fn data_prints(found: &Data) -> bool
    ensures { result ≡ is_not_empty (print (view found.now)) }
{
    match found {
        Data::Nothing => false,
        Data::Text(text) => !text.as_str().is_empty(),
        Data::Named(parts) => !parts.0.as_str().is_empty(),
        Data::Values(items) => !first_text(items.as_slice()).is_empty(),
        Data::Number(number) => decimal_prints(*number),
        Data::Truth(_) | Data::List(_) | Data::Fields(_) => true,
    }
}

// Each number has a digit.
#[tactic(auto, using(crate::proofs::Printed::wide_prints))]
fn decimal_prints(_number: i128) -> bool
    ensures { result ≡ is_not_empty (signed_decimal _number) }
{
    true
}
