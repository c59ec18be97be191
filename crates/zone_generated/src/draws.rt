// Numbers that are drawn one after another, and the host of each.
ghost use Rattle.std.specs.Prelude.{◌≡◌, ◌<◌, ◌^◌, [], ◌∷◌, ◌++◌, IfOk, OnOk, string_bytes};
ghost use Rattle.std.specs.List.Sorted.{IsSortedByKey, IsStableByKey};
ghost use Rattle.std.specs.Ordering.{nat_cmp};
ghost use Rattle.zone_generated.specs.Generated as generated;
ghost use Rattle.zone_generated.specs.Ranks.{rank, host_rank};

use std::alloc::{AllocError, Global};

/// The draw after another one, modulo 2^64: Knuth's linear congruential generator for MMIX, whose upper bits are the better ones.
pub(crate) fn next_draw(draw: u64) -> u64
    ensures { result ≡ generated.next_draw draw }
{
    draw.wrapping_mul(6_364_136_223_846_793_005)
        .wrapping_add(1_442_695_040_888_963_407)
}

/// The address of a draw's host, in network order: the upper half of the draw.
pub(crate) fn host_address(draw: u64) -> [u8; 4]
    ensures { result ≡ generated.host_address draw }
{
    ((draw >> 32) as u32).to_be_bytes()
}

/// The number of a draw's host, below `count`.
fn host_number(count: u32, draw: u64) -> u64
    requires { 0 < count }
    ensures { result ≡ generated.host_number count draw }
{
    (draw >> 33) % u64::from(count)
}

/// The label of a draw's host, one of `count`: `h` and a number below `count`.
pub(crate) fn host_label(alloc: Global, count: u32, draw: u64) -> Result<String, AllocError>
    requires { 0 < count }
    ensures is { IfOk result (λ l. string_bytes l ≡ generated.host_label count draw) }
{
    let number = host_number(count, draw);
    format!(in alloc; "h{number}")
}

/// What orders numbers below 10^10 as their digits are ordered, 1 before 10 before 2: ten digits, zeros last where the number has fewer, and then
/// how many digits it has after the first.
fn rank(number: u64) -> u64
    requires { number < 10 ^ 10 }
    ensures { result ≡ rank number }
{
    let mut scaled = number;
    let mut more = 9;
    while more > 0 && scaled < 1_000_000_000 {
        scaled *= 10;
        more -= 1;
    }
    scaled * 10 + more
}

/// The rank of the number of a draw's host, one of `count`.
fn host_rank(count: u32, draw: u64) -> u64
    requires { 0 < count }
    ensures { result ≡ host_rank count draw }
{
    rank(host_number(count, draw))
}

/// Keeps the draw after another one, and gives it.
fn push_next(drawn: &mut Vec<u64>, draw: u64) -> Result<u64, AllocError>
    ensures next { IfOk result (λ d. d ≡ generated.next_draw draw) }
    ensures kept { OnOk result (drawn.new.items ≡ drawn.old.items ++ generated.next_draw draw ∷ []) }
{
    let next = next_draw(draw);
    drawn.push(next)?;
    Ok(next)
}

/// So many draws after the seed.
fn draws(alloc: Global, count: u32, seed: u64) -> Result<Vec<u64>, AllocError>
    ensures { IfOk result (λ v. v.items ≡ generated.draws count seed) }
{
    let mut drawn = Vec::with_capacity(alloc, count as usize)?;
    let mut draw = seed;
    for number in 0..count {
        draw = push_next(&mut drawn, draw)?;
    }
    Ok(drawn)
}

/// The same, in the order of their hosts' ranks. Draws of one host stand as they were drawn.
pub(crate) fn draws_by_owner(alloc: Global, count: u32, seed: u64) -> Result<Vec<u64>, AllocError>
    requires { 0 < count }
    ensures sorted { IfOk result (λ v. IsSortedByKey (host_rank count) nat_cmp v.items) }
    ensures stable { IfOk result (λ v. IsStableByKey (host_rank count) nat_cmp (generated.draws count seed) v.items) }
{
    let mut drawn = draws(alloc, count, seed)?;
    drawn.sort_by_cached_key(|x| host_rank(count, *x))?;
    Ok(drawn)
}
