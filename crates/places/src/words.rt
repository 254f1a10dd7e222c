//! Sets of places as words of bits: place p is in the set if bit p % 64 of word p / 64 is 1.

ghost use Rattle.std.specs.Prelude.{◌≡◌, ℕ, ◌≤◌, ◌^◌, max, slice_index, length, filter, not, IfOk, OnOk, OnErr};
ghost use Rattle.std.specs.List.{list_any};
ghost use Rattle.places.specs.steps.PlaceSet.{has, is_within, places, with_places, with_place, IsLowest};
ghost use Rattle.places.specs.steps.Words.{common_word, has_bit, places_in, rest_word};

use base_types::NoMemory;
use smallvec::SmallVec;
use std::alloc::Global;

/// The number of words that need no allocation: most objects have no more than 128 changes.
const INLINE_WORDS: usize = 2;

/// The words of a set.
pub(crate) type Words = SmallVec<u64, INLINE_WORDS>;

/// A word, or 0 past the last one.
pub(crate) fn word(words: &[u64], at: usize) -> u64
    ensures { result ≡ slice_index words.now at }
{
    if at < words.len() { words[at] } else { 0 }
}

/// Do the words have the place?
pub(crate) fn has_bit(words: &[u64], place: u32) -> bool
    ensures { result ≡ has (places_in words.now) place }
{
    (word(words, (place / 64) as usize) >> (place % 64)) & 1 == 1
}

/// Appends words that are 0 until there are at least so many.
fn lengthen(words: &mut Words, len: usize) -> Result<(), NoMemory>
    ensures same { (k : ℕ) → slice_index words.new.items k ≡ slice_index words.old.items k }
    ensures len { OnOk result (length words.new.items ≡ max len (length words.old.items)) }
    ensures err { OnErr result (words.new.items ≡ words.old.items) }
{
    if words.len() < len {
        words.resize(len, 0)?;
    }
    Ok(())
}

/// Adds a place.
pub(crate) fn set_bit(words: &mut Words, place: u32) -> Result<(), NoMemory>
    requires { length words.old.items ≤ 2 ^ 26 }
    ensures ok { OnOk result
        (places_in words.new.items ≡ with_place place (places_in words.old.items)) }
    ensures few { length words.new.items ≤ 2 ^ 26 }
    ensures err { OnErr result (words.new.items ≡ words.old.items) }
{
    let at = (place / 64) as usize;
    lengthen(words, at + 1)?;
    words[at] |= 1u64 << (place % 64);
    Ok(())
}

/// Is each place of the first words one of the second?
pub(crate) fn is_within(first: &[u64], second: &[u64]) -> bool
    ensures { result ≡ is_within (places_in first.now) (places_in second.now) }
{
    for at in 0..first.len() {
        if first[at] & word(second, at) != first[at] {
            return false;
        }
    }
    true
}

/// Have the two a place in common?
pub(crate) fn intersects(first: &[u64], second: &[u64]) -> bool
    ensures { result ≡ list_any (has (places_in second.now)) (places_in first.now) }
{
    for at in 0..first.len().min(second.len()) {
        if first[at] & second[at] != 0 {
            return true;
        }
    }
    false
}

/// The number of words up to the last one of the first with a place that the second don't have.
fn rest_len(first: &[u64], second: &[u64]) -> usize
    ensures first { result ≤ length first.now }
    ensures none { (k : ℕ) → result ≤ k → rest_word first.now second.now k ≡ 0 }
{
    let mut len = first.len();
    while len > 0 && first[len - 1] & word(second, len - 1) == first[len - 1] {
        len -= 1;
    }
    len
}

/// A copy of words. If it needs an allocation, it needs one, of just as many words.
pub(crate) fn copy(alloc: Global, words: &[u64]) -> Result<Words, NoMemory>
    ensures { IfOk result (λ copy. copy.items ≡ words.now) }
{
    if words.len() <= INLINE_WORDS {
        return Ok(Words::from_slice(alloc, words)?);
    }
    let mut copy = Vec::with_capacity(alloc, words.len())?;
    copy.extend_from_slice(words)?;
    Ok(Words::from_vec(copy))
}

/// The places of the first that the second don't have.
pub(crate) fn difference(alloc: Global, first: &[u64], second: &[u64]) -> Result<Words, NoMemory>
    ensures others { IfOk result (λ others. places_in others.items
        ≡ filter (λ place. not (has (places_in second.now) place)) (places_in first.now)) }
    ensures few { IfOk result (λ others. length others.items ≤ length first.now) }
{
    let len = rest_len(first, second);
    let mut others = copy(alloc, &first[..len])?;
    for at in 0..len.min(second.len()) {
        others[at] ^= others[at] & second[at];
    }
    Ok(others)
}

/// Adds the places of others.
pub(crate) fn join(words: &mut Words, others: &[u64]) -> Result<(), NoMemory>
    requires own { length words.old.items ≤ 2 ^ 26 }
    requires other { length others.now ≤ 2 ^ 26 }
    ensures ok { OnOk result (places_in words.new.items
        ≡ with_places (places_in words.old.items) (places_in others.now)) }
    ensures few { length words.new.items ≤ 2 ^ 26 }
    ensures err { OnErr result (words.new.items ≡ words.old.items) }
{
    let len = words.len().min(others.len());
    if len < others.len() {
        words.extend_from_slice(&others[len..])?;
    }
    for at in 0..len {
        words[at] |= others[at];
    }
    Ok(())
}

/// Adds those places of others that are below a bound.
pub(crate) fn join_below(words: &mut Words, others: &[u64], bound: u32) -> Result<(), NoMemory>
    requires own { length words.old.items ≤ 2 ^ 26 }
    requires other { length others.now ≤ 2 ^ 26 }
    ensures ok { OnOk result (places_in words.new.items
        ≡ with_places (places_in words.old.items)
        (filter (has (places bound)) (places_in others.now))) }
    ensures few { length words.new.items ≤ 2 ^ 26 }
{
    let whole = (bound / 64) as usize;
    if whole >= others.len() {
        return join(words, others);
    }
    join(words, &others[..whole])?;
    lengthen(words, whole + 1)?;
    words[whole] |= others[whole] & ((1u64 << (bound % 64)) - 1);
    Ok(())
}

/// Fills a list with the places of both, in increasing order.
pub(crate) fn list_common(
    first: &[u64],
    second: &[u64],
    list: &mut Vec<u32>,
) -> Result<(), NoMemory>
    requires { length first.now ≤ 2 ^ 26 }
    ensures { OnOk result (list.new.items
        ≡ filter (has (places_in second.now)) (places_in first.now)) }
{
    list.clear();
    for at in 0..first.len().min(second.len()) {
        let mut left = first[at] & second[at];
        while left != 0 {
            let bit = left.trailing_zeros();
            list.push(at as u32 * 64 + bit)?;
            left &= !(1u64 << bit);
        }
    }
    Ok(())
}

/// The words of the first places.
pub(crate) fn first_places(alloc: Global, len: u32) -> Result<Words, NoMemory>
    ensures first { IfOk result (λ words. places_in words.items ≡ places len) }
    ensures few { IfOk result (λ words. length words.items ≤ 2 ^ 26) }
{
    if len.div_ceil(64) as usize <= INLINE_WORDS {
        few_first_places(alloc, len)
    } else {
        many_first_places(alloc, len)
    }
}

/// The words of the first places, if they need no allocation.
fn few_first_places(alloc: Global, len: u32) -> Result<Words, NoMemory>
    ensures first { IfOk result (λ words. places_in words.items ≡ places len) }
    ensures few { IfOk result (λ words. length words.items ≤ 2 ^ 26) }
{
    let mut words = Words::new(alloc);
    words.resize((len / 64) as usize, u64::MAX)?;
    if !len.is_multiple_of(64) {
        words.push((1u64 << (len % 64)) - 1)?;
    }
    Ok(words)
}

/// The words of the first places, in one allocation of just as many words.
fn many_first_places(alloc: Global, len: u32) -> Result<Words, NoMemory>
    ensures first { IfOk result (λ words. places_in words.items ≡ places len) }
    ensures few { IfOk result (λ words. length words.items ≤ 2 ^ 26) }
{
    let mut words = Vec::with_capacity(alloc, len.div_ceil(64) as usize)?;
    words.resize((len / 64) as usize, u64::MAX)?;
    if !len.is_multiple_of(64) {
        words.push((1u64 << (len % 64)) - 1)?;
    }
    Ok(Words::from_vec(words))
}

/// The lowest place, if there is one.
pub(crate) fn lowest_place(words: &[u64]) -> Option<u32>
    requires { length words.now ≤ 2 ^ 26 }
    ensures { IsLowest result (places_in words.now) }
{
    for at in 0..words.len() {
        if words[at] != 0 {
            return Some(at as u32 * 64 + words[at].trailing_zeros());
        }
    }
    None
}

/// How many places the words have.
pub(crate) fn count_bits(words: &[u64]) -> usize
    requires { length words.now ≤ 2 ^ 26 }
    ensures { result ≡ length (places_in words.now) }
{
    let mut count = 0;
    for word in words {
        count += word.count_ones() as usize;
    }
    count
}

/// The places of the words, in increasing order.
pub(crate) fn list(alloc: Global, words: &[u64]) -> Result<Vec<u32>, NoMemory>
    requires { length words.now ≤ 2 ^ 26 }
    ensures { IfOk result (λ list. list.items ≡ places_in words.now) }
{
    let mut list = Vec::with_capacity(alloc, count_bits(words))?;
    for at in 0..words.len() {
        let mut left = words[at];
        while left != 0 {
            let bit = left.trailing_zeros();
            list.push(at as u32 * 64 + bit)?;
            left &= !(1u64 << bit);
        }
    }
    Ok(list)
}
