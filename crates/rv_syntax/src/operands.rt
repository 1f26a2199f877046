//! The operands behind a mnemonic.
ghost use Rattle.std.specs.Prelude.{◌≡◌, ◌<◌, ◌≤ℤ◌, IfSome, true, option_map, pos, negsuc, ◌≤◌};
ghost use Rattle.rv_syntax.specs.Names.{rows};
ghost use Rattle.rv_words.specs.Words.{is_even};
ghost use Rattle.rv_syntax.specs.Numbers.{number_within, within};
ghost use Rattle.rv_syntax.specs.Operands.{pair_of, triple_of, closed_register_of, memory_of, address_register_of, from_here, distance_of, target_of, label_distance_of};

use crate::names::{Label, lookup};
use crate::numbers;
use crate::registers::register;
use crate::text::{split_at, trim};

/// Two operands. `None` exactly where there is no comma.
#[tactic(auto, unfolding(crate::specs::Operands::pair_of))]
pub fn pair(text: &[u8]) -> Option<(&[u8], &[u8])>
    ensures { option_map (λ parts. (parts.0.now, parts.1.now)) result ≡ pair_of text.now }
{
    let (first, second) = split_at(text, b',')?;
    Some((trim(first), trim(second)))
}

/// Three operands. `None` exactly where there are fewer than two commas.
#[tactic(auto, unfolding(crate::specs::Operands::triple_of))]
pub fn triple(text: &[u8]) -> Option<(&[u8], &[u8], &[u8])>
    ensures { option_map (λ parts. (parts.0.now, parts.1.now, parts.2.now)) result ≡ triple_of text.now }
{
    let (first, rest) = split_at(text, b',')?;
    let (second, third) = pair(rest)?;
    Some((trim(first), second, third))
}

/// The number that an operand stands for, if it is from the first bound to the second.
pub fn immediate(text: &[u8], low: i64, high: i64) -> Option<i64>
    ensures exact { result ≡ number_within low high text.now }
    ensures range { IfSome result (λ n. (low ≤ℤ n) × (n ≤ℤ high)) }
{
    let n = numbers::number_within(text, i128::from(low), i128::from(high))?;
    Some(n as i64)
}

/// The number that an operand stands for, if it is from 0 to the bound.
pub fn unsigned(text: &[u8], high: u32) -> Option<u32>
    ensures exact { option_map pos result ≡ number_within (pos 0) (pos high) text.now }
    ensures range { IfSome result (λ n. n ≤ high) }
{
    let n = numbers::number_within(text, 0, i128::from(high))?;
    Some(n as u32)
}

// The register before a closing parenthesis that ends the text.
#[tactic(auto, unfolding(crate::specs::Operands::closed_register_of))]
fn closed_register(text: &[u8]) -> Option<u32>
    ensures exact { result ≡ closed_register_of text.now }
    ensures small { IfSome result (λ register. register < 32) }
{
    let (name, rest) = split_at(text, b')')?;
    if !rest.is_empty() {
        return None;
    }
    register(name)
}

/// The number and the register of `N(rs1)`.
#[tactic(auto, unfolding(crate::specs::Operands::memory_of))]
pub fn memory(text: &[u8]) -> Option<(i64, u32)>
    ensures exact { result ≡ memory_of text.now }
    ensures range { IfSome result (λ found. (negsuc 2047 ≤ℤ found.0) × (found.0 ≤ℤ pos 2047) × (found.1 < 32)) }
{
    let (number, rest) = split_at(text, b'(')?;
    let offset = immediate(number, -2048, 2047)?;
    let register = closed_register(rest)?;
    Some((offset, register))
}

/// The register of `(rs1)`.
#[tactic(auto, unfolding(crate::specs::Operands::address_register_of))]
pub fn address_register(text: &[u8]) -> Option<u32>
    ensures exact { result ≡ address_register_of text.now }
    ensures small { IfSome result (λ register. register < 32) }
{
    let (front, rest) = split_at(text, b'(')?;
    if !front.is_empty() {
        return None;
    }
    closed_register(rest)
}

// A number from the first bound to the second. `None` exactly for another one.
fn within(n: i128, low: i64, high: i64) -> Option<i64>
    ensures exact { result ≡ within low high n }
    ensures range { IfSome result (λ n. (low ≤ℤ n) × (n ≤ℤ high)) }
{
    if i128::from(low) <= n && n <= i128::from(high) {
        Some(n as i64)
    } else {
        None
    }
}

// How far a label with this address is from here, or 0 where it has none.
fn from_here(here: u64, address: Option<u64>) -> i128
    ensures { result ≡ from_here here address }
{
    match address {
        Some(address) => i128::from(address) - i128::from(here),
        None => 0,
    }
}

// The distance that a target stands for: that of a label from here, or a number.
#[tactic(auto, unfolding(crate::specs::Operands::distance_of))]
fn distance(labels: &[Label<'_>], here: u64, text: &[u8]) -> Option<i128>
    ensures { result ≡ distance_of (rows labels.now) here text.now }
{
    match lookup(labels, text) {
        Some(address) => Some(from_here(here, address)),
        None => numbers::number(text),
    }
}

/// The even distance, from the first bound to the second, that a target stands for.
#[tactic(auto, unfolding(crate::specs::Operands::target_of))]
pub fn target(labels: &[Label<'_>], here: u64, text: &[u8], low: i64, high: i64) -> Option<i64>
    ensures exact { result ≡ target_of low high (rows labels.now) here text.now }
    ensures range { IfSome result (λ n. (low ≤ℤ n) × (n ≤ℤ high)) }
    ensures even { IfSome result (λ n. is_even n ≡ true) }
{
    let n = within(distance(labels, here, text)?, low, high)?;
    if n % 2 == 0 { Some(n) } else { None }
}

/// The distance of a label from here, if two signed immediates, of 32 bits and a multiple of 4096, and of 12 bits, add up
/// to it.
#[tactic(auto, unfolding(crate::specs::Operands::label_distance_of))]
pub fn label_distance(labels: &[Label<'_>], here: u64, name: &[u8]) -> Option<i64>
    ensures exact { result ≡ label_distance_of (rows labels.now) here name.now }
    ensures range { IfSome result (λ n. (negsuc 0x800007ff ≤ℤ n) × (n ≤ℤ pos 0x7ffff7ff)) }
{
    let address = lookup(labels, name)?;
    within(from_here(here, address), -0x8000_0800, 0x7fff_f7ff)
}
