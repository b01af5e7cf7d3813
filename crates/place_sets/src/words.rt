// Rows of words, compared a block at a time.
ghost use Rattle.std.specs.Prelude.{◌≡◌, ℕ, ◌+◌, ◌*◌, ◌<◌, ◌≤◌, ◌↔◌, IsTrue, false, length, slice_index, bit_and};
ghost use Rattle.place_sets.specs.Rows.{is_set, LieWithin, AreSameWords};
ghost use Rattle.place_sets.specs.Sets.{IsPartOf, AreSame, count_below};

use std::simd::prelude::*;

// The words of a block.
const LANES: usize = 8;

// Whether both blocks have the same words.
#[inline(always)]
fn are_same(one: u64x8, other: u64x8) -> bool
    ensures { IsTrue result ↔ AreSameWords one other 0 8 }
{
    one.simd_ne(other).to_bitmask() == 0
}

// Whether the block at a place of the one row has only bits that the other row's block has too.
#[inline(always)]
fn block_lies_within(one: &[u64], other: &[u64], at: usize) -> bool
    requires one { at + 8 ≤ length one.now }
    requires other { at + 8 ≤ length other.now }
    ensures { IsTrue result ↔ LieWithin one.now other.now at (at + 8) }
{
    let block = u64x8::from_slice(&one[at..]);
    are_same(block & u64x8::from_slice(&other[at..]), block)
}

// Whether the blocks at a place of both rows are the same.
#[inline(always)]
fn blocks_are_same(one: &[u64], other: &[u64], at: usize) -> bool
    requires one { at + 8 ≤ length one.now }
    requires other { at + 8 ≤ length other.now }
    ensures { IsTrue result ↔ AreSameWords one.now other.now at (at + 8) }
{
    are_same(
        u64x8::from_slice(&one[at..]),
        u64x8::from_slice(&other[at..]),
    )
}

// Whether the words from a place on have only bits that the other row has too.
fn rest_lies_within(one: &[u64], other: &[u64], from: usize) -> bool
    requires { length one.now ≡ length other.now }
    ensures { IsTrue result ↔ LieWithin one.now other.now from (length one.now) }
{
    for at in from..one.len() {
        if one[at] & other[at] != one[at] {
            return false;
        }
    }
    true
}

// Whether both rows have the same words from a place on.
fn rest_is_same(one: &[u64], other: &[u64], from: usize) -> bool
    requires { length one.now ≡ length other.now }
    ensures { IsTrue result ↔ AreSameWords one.now other.now from (length one.now) }
{
    for at in from..one.len() {
        if one[at] != other[at] {
            return false;
        }
    }
    true
}

// Whether the first blocks of the one row have only bits that the other row has too.
fn blocks_lie_within(one: &[u64], other: &[u64], blocks: usize) -> bool
    requires long { length one.now ≡ length other.now }
    requires within { 8 * blocks ≤ length one.now }
    ensures { IsTrue result ↔ LieWithin one.now other.now 0 (8 * blocks) }
{
    for block in 0..blocks {
        if !block_lies_within(one, other, LANES * block) {
            return false;
        }
    }
    true
}

// Whether the first blocks of both rows are the same.
fn first_blocks_are_same(one: &[u64], other: &[u64], blocks: usize) -> bool
    requires long { length one.now ≡ length other.now }
    requires within { 8 * blocks ≤ length one.now }
    ensures { IsTrue result ↔ AreSameWords one.now other.now 0 (8 * blocks) }
{
    for block in 0..blocks {
        if !blocks_are_same(one, other, LANES * block) {
            return false;
        }
    }
    true
}

// Whether each place of the one row is in the other row, which is as long.
pub(crate) fn is_part_of(one: &[u64], other: &[u64]) -> bool
    requires { length one.now ≡ length other.now }
    ensures { IsTrue result ↔ IsPartOf (is_set one.now) (is_set other.now) }
{
    let blocks = one.len() / LANES;
    blocks_lie_within(one, other, blocks) && rest_lies_within(one, other, LANES * blocks)
}

// Whether both rows, which are as long, have the same places.
pub(crate) fn have_same_places(one: &[u64], other: &[u64]) -> bool
    requires { length one.now ≡ length other.now }
    ensures { IsTrue result ↔ AreSame (is_set one.now) (is_set other.now) }
{
    let blocks = one.len() / LANES;
    first_blocks_are_same(one, other, blocks) && rest_is_same(one, other, LANES * blocks)
}

// How many places are in a row, which has none from the size on.
pub(crate) fn count_places(words: &[u64], size: u32) -> u32
    requires long { size ≤ 64 * length words.now }
    requires within { (place : ℕ) → size ≤ place → is_set words.now place ≡ false }
    ensures { result ≡ count_below (is_set words.now) size }
{
    let mut count = 0;
    for word in words {
        count += word.count_ones();
    }
    count
}
