// Equal keys as groups, by maps: each key is looked up, and compared with those of its hash alone.
ghost use Rattle.std.specs.Prelude.{◌≡◌, ◌==◌, ◌&&◌, nat_lt, length, IfOk, OnOk};
ghost use Rattle.key_groups.specs.Groups.{larger_groups, places_of};
ghost use Rattle.key_groups.specs.Inner.Maps.{values_at, Counts, Numbers, PositionsBelow, PutsNew};

use crate::place::Place;
use std::alloc::{AllocError, Global};
use std::collections::HashMap;
use std::hash::Hash;

/// The place of each key, in their order. Each key is hashed five or six times.
pub fn places_of<K: Eq + Hash>(alloc: Global, keys: &[K]) -> Result<Vec<Place>, AllocError>
    ensures { IfOk result (λ places. places.items ≡ places_of K.eq keys.now) }
{
    let counted = count(alloc, keys)?;
    let larger = larger_of(alloc, keys, &counted)?;
    let numbers = numbers_of(alloc, larger.as_slice())?;
    let mut places = Vec::with_capacity(alloc, keys.len())?;
    for index in 0..keys.len() {
        let position = counted.positions[index];
        let size = counted.sizes.get(&&keys[index]).copied().unwrap_or(0);
        let group = numbers.get(&&keys[index]).copied();
        places.push(Place {
            position,
            size,
            group,
        })?;
    }
    Ok(places)
}

// What one pass over the keys counts.
#[derive(Drop)]
struct Counted<'a, K: Eq + Hash> {
    // How many of the keys are equal to each.
    sizes: HashMap<&'a K, usize>,
    // Which of its group each key is, from 1.
    positions: Vec<usize>,
}

fn count<'a, K: Eq + Hash>(alloc: Global, keys: &'a [K]) -> Result<Counted<'a, K>, AllocError>
    ensures sizes { IfOk result (λ counted. Counts K.eq keys.now counted.sizes) }
    ensures len { IfOk result (λ counted. length counted.positions.items ≡ length keys.now) }
    ensures positions { IfOk result (λ counted.
        PositionsBelow K.eq keys.now (length keys.now) counted.positions.items) }
{
    let mut sizes = HashMap::new(alloc);
    let mut positions = Vec::with_capacity(alloc, keys.len())?;
    for key in keys {
        let position = sizes.get(&key).copied().unwrap_or(0) + 1;
        sizes.insert(key, position)?;
        positions.push(position)?;
    }
    Ok(Counted { sizes, positions })
}

// The first key of each group that has two or more.
fn larger_of<'a, K: Eq + Hash>(
    alloc: Global,
    keys: &'a [K],
    counted: &Counted<'a, K>,
) -> Result<Vec<&'a K>, AllocError>
    requires sizes { Counts K.eq keys.now counted.now.sizes }
    requires len { length counted.now.positions.items ≡ length keys.now }
    requires positions { PositionsBelow K.eq keys.now (length keys.now) counted.now.positions.items }
    ensures { IfOk result (λ larger. values_at larger.items ≡ larger_groups K.eq keys.now) }
{
    let mut larger = Vec::new(alloc);
    for index in 0..keys.len() {
        let key = &keys[index];
        let position = counted.positions[index];
        let size = counted.sizes.get(&key).copied().unwrap_or(0);
        if begins_larger(position, size) {
            larger.push(key)?;
        }
    }
    Ok(larger)
}

// Whether the key of that position is the first of a group that has two or more.
fn begins_larger(position: usize, size: usize) -> bool
    ensures { result ≡ ((position == 1) && nat_lt 1 size) }
{
    position == 1 && size > 1
}

// Which of the keys is the first that is equal to each, from 1.
fn numbers_of<'a, K: Eq + Hash>(
    alloc: Global,
    keys: &[&'a K],
) -> Result<HashMap<&'a K, usize>, AllocError>
    ensures { IfOk result (Numbers K.eq (values_at keys.now)) }
{
    let mut numbers = HashMap::new(alloc);
    for index in 0..keys.len() {
        insert_new(&mut numbers, keys[index], index + 1)?;
    }
    Ok(numbers)
}

// Gives the number to a key that has none.
fn insert_new<'a, K: Eq + Hash>(
    numbers: &mut HashMap<&'a K, usize>,
    key: &'a K,
    number: usize,
) -> Result<(), AllocError>
    ensures { OnOk result (PutsNew K.eq numbers.old numbers.new key.now number) }
{
    if numbers.contains_key(&key) {
        return Ok(());
    }
    numbers.insert(key, number)?;
    Ok(())
}
