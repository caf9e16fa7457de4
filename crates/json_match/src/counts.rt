// Values that are no lists or objects are found in a list in any order by how often each is there, so that a long list
// takes no comparison of each pair.
ghost use Rattle.std.specs.Prelude.{◌≡◌, ◌+◌, ◌<◌, ◌^◌, ℕ, ℤ, List, IfOk, OnOk, IsTrue, nat_lt};
ghost use Rattle.std.specs.Ordering.{int_eq};
ghost use Rattle.std.specs.Str.{bytes_eq};
ghost use Rattle.data_tree.specs.Tree.{Tree, view, items_view};
ghost use Rattle.json_match.specs.Inner.Counts.{is_scalar, are_scalars, same, each_takes_same, once, times};
ghost use Rattle.json_match.specs.Inner.Counts.{of_number, of_text, counted};

use data_tree::data::Data;
use std::alloc::{AllocError, Global};
use std::collections::BTreeMap;

/// How many of each value are counted.
#[derive(Drop)]
pub(crate) struct Counts<'a> {
    nothings: usize,
    trues: usize,
    falses: usize,
    numbers: BTreeMap<i128, usize>,
    texts: BTreeMap<&'a str, usize>,
}

/// Whether none of the items is a list or an object.
pub(crate) fn are_scalars(items: &Vec<Data>) -> bool
    ensures { result ≡ are_scalars (items_view items.now.items) }
{
    for item in items {
        if !is_scalar(item) {
            return false;
        }
    }
    true
}

fn is_scalar(item: &Data) -> bool
    ensures { result ≡ is_scalar (view item.now) }
{
    match item {
        Data::Nothing => true,
        Data::Truth(_) => true,
        Data::Number(_) => true,
        Data::Text(_) => true,
        _ => false,
    }
}

/// Whether each expected item finds one of its own, where all that are lists or objects find none.
pub(crate) fn each_takes_same<'a>(
    expected: &'a Vec<Data>,
    actual: &'a Vec<Data>,
) -> Result<bool, AllocError>
    ensures { IfOk result (λ yes. yes
        ≡ each_takes_same (items_view expected.now.items) (items_view actual.now.items)) }
{
    let mut counts = count(actual)?;
    for item in expected {
        if !counts.take(item)? {
            return Ok(false);
        }
    }
    Ok(true)
}

fn count<'a>(items: &'a Vec<Data>) -> Result<Counts<'a>, AllocError>
    ensures { IfOk result (λ counts. (s : Tree) → counted counts s ≡ times s (items_view items.now.items)) }
{
    let mut counts = Counts::new(*items.allocator());
    for item in items {
        counts.add(item)?;
    }
    Ok(counts)
}

impl<'a> Counts<'a> {
    fn new(alloc: Global) -> Counts<'a>
        ensures { (s : Tree) → counted result s ≡ 0 }
    {
        Counts {
            nothings: 0,
            trues: 0,
            falses: 0,
            numbers: BTreeMap::new(alloc),
            texts: BTreeMap::new(alloc),
        }
    }

    /// One more of the item, if it is no list or object.
    fn add(&mut self, item: &'a Data) -> Result<(), AllocError>
        requires { (s : Tree) → counted self.old s + 1 < 2 ^ 64 }
        ensures { OnOk result ((s : Tree) →
            counted self.new s ≡ counted self.old s + once (same s (view item.now))) }
    {
        match item {
            Data::Nothing => {
                self.nothings += 1;
                Ok(())
            }
            Data::Truth(true) => {
                self.trues += 1;
                Ok(())
            }
            Data::Truth(false) => {
                self.falses += 1;
                Ok(())
            }
            Data::Number(number) => add_number(&mut self.numbers, *number),
            Data::Text(text) => add_text(&mut self.texts, text.as_str()),
            _ => Ok(()),
        }
    }

    /// One less of the item, if one is left.
    fn take(&mut self, item: &'a Data) -> Result<bool, AllocError>
        ensures found { IfOk result (λ yes. yes ≡ nat_lt 0 (counted self.old (view item.now))) }
        ensures left { IfOk result (λ yes. IsTrue yes → (s : Tree) →
            counted self.new s + once (same s (view item.now)) ≡ counted self.old s) }
    {
        match item {
            Data::Nothing => Ok(take_one(&mut self.nothings)),
            Data::Truth(true) => Ok(take_one(&mut self.trues)),
            Data::Truth(false) => Ok(take_one(&mut self.falses)),
            Data::Number(number) => take_number(&mut self.numbers, *number),
            Data::Text(text) => take_text(&mut self.texts, text.as_str()),
            _ => Ok(false),
        }
    }
}

fn take_one(left: &mut usize) -> bool
    ensures found { result ≡ nat_lt 0 left.old }
    ensures left { IsTrue result → left.new + 1 ≡ left.old }
{
    if *left == 0 {
        return false;
    }
    *left -= 1;
    true
}

fn add_number(numbers: &mut BTreeMap<i128, usize>, number: i128) -> Result<(), AllocError>
    requires { (n : ℤ) → of_number numbers.old n + 1 < 2 ^ 64 }
    ensures { OnOk result ((n : ℤ) →
        of_number numbers.new n ≡ of_number numbers.old n + once (int_eq n number)) }
{
    let before = numbers.get(&number).copied().unwrap_or(0);
    numbers.insert(number, before + 1)?;
    Ok(())
}

fn take_number(numbers: &mut BTreeMap<i128, usize>, number: i128) -> Result<bool, AllocError>
    ensures found { IfOk result (λ yes. yes ≡ nat_lt 0 (of_number numbers.old number)) }
    ensures left { IfOk result (λ yes. IsTrue yes → (n : ℤ) →
        of_number numbers.new n + once (int_eq n number) ≡ of_number numbers.old n) }
{
    let before = numbers.get(&number).copied().unwrap_or(0);
    if before == 0 {
        return Ok(false);
    }
    numbers.insert(number, before - 1)?;
    Ok(true)
}

fn add_text<'a>(texts: &mut BTreeMap<&'a str, usize>, text: &'a str) -> Result<(), AllocError>
    requires { of_text texts.old text.now + 1 < 2 ^ 64 }
    ensures { OnOk result ((s : List ℕ) →
        of_text texts.new s ≡ of_text texts.old s + once (bytes_eq s text.now)) }
{
    let before = texts.get(&text).copied().unwrap_or(0);
    texts.insert(text, before + 1)?;
    Ok(())
}

fn take_text<'a>(texts: &mut BTreeMap<&'a str, usize>, text: &'a str) -> Result<bool, AllocError>
    ensures found { IfOk result (λ yes. yes ≡ nat_lt 0 (of_text texts.old text.now)) }
    ensures left { IfOk result (λ yes. IsTrue yes → (s : List ℕ) →
        of_text texts.new s + once (bytes_eq s text.now) ≡ of_text texts.old s) }
{
    let before = texts.get(&text).copied().unwrap_or(0);
    if before == 0 {
        return Ok(false);
    }
    texts.insert(text, before - 1)?;
    Ok(true)
}
