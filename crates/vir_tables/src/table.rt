// Tables of pairs: one number for each ordered pair of alternatives, row after row.
ghost use Rattle.std.specs.Prelude.{◌≡◌, ◌+◌, ◌-◌, ◌*◌, ◌<◌, ◌≤◌, ◌^◌, ℕ, All, None, OnOk, IsTrue, length, slice_index};
ghost use Rattle.std.specs.Prelude.{false, nat_eq, nat_lt, if◌then◌else◌};
ghost use Rattle.vir_altset.specs.Sets.{limit};
ghost use Rattle.vir_profile.specs.OrderFaults.{order_fault};
ghost use Rattle.vir_profile.specs.Profiles.{IsProfile, pairwise_weight, total_weight};
ghost use Rattle.vir_tables.specs.Additions.{AreWeights, weight_before};
ghost use Rattle.vir_tables.specs.Places.{ArePlaces, HasPlace, HaveRows};
ghost use Rattle.vir_tables.specs.Table.{index, cell, Holds, HoldsFrom, IsAlternative, IsTable};

use std::alloc::{AllocError, Global};
use vir_profile::{Entry, NARROW};

/// The place of the pair of x and y in a table for m alternatives.
pub fn index(m: u16, x: u16, y: u16) -> usize
    requires first { IsAlternative m x }
    requires second { IsAlternative m y }
    ensures exact { result ≡ index m x y }
    ensures inside { result < m * m }
{
    (usize::from(x) - 1) * usize::from(m) + (usize::from(y) - 1)
}

// How many lines are added at once.
const BLOCK: usize = 128;

// Notes at line l of n lines at which place of the order each alternative stands.
fn find_places(places: &mut [u16], n: usize, l: usize, order: &[u16])
    requires line { l < n }
    requires listed { HaveRows n (length places.old) order.now }
    requires short { length order.now < 2 ^ 16 }
    ensures found { (k : ℕ) → k < length order.now
        → HasPlace order.now places.new ((slice_index order.now k - 1) * n + l) (slice_index order.now k) }
    ensures others { (a j : ℕ) → j < n → nat_eq j l ≡ false
        → slice_index places.new (a * n + j) ≡ slice_index places.old (a * n + j) }
{
    for i in 0..order.len() {
        places[(usize::from(order[i]) - 1) * n + l] = i as u16;
    }
}

// Notes for each alternative at which place of its order each line has it.
fn find_all(places: &mut [u16], m: u16, lines: &[Entry])
    requires size { m * length lines.now ≤ length places.old }
    requires known { All (λ line. order_fault m line.order ≡ None) lines.now }
    ensures found { ArePlaces m (length lines.now) (length lines.now) places.new lines.now }
{
    let mut room = [0; NARROW];
    for (l, line) in lines.iter().enumerate() {
        find_places(places, lines.len(), l, line.order.alternatives(&mut room));
    }
}

// Notes the weights of the lines.
fn note_weights(weights: &mut [u64], lines: &[Entry])
    requires size { length weights.old ≡ length lines.now }
    ensures size { length weights.new ≡ length lines.now }
    ensures noted { AreWeights weights.new lines.now }
{
    for (l, line) in lines.iter().enumerate() {
        weights[l] = line.weight;
    }
}

// Notes the weights of the lines in 16 bits, and whether that holds their sum.
fn note_light_weights(weights: &mut [u16], lines: &[Entry]) -> bool
    requires size { length weights.old ≡ length lines.now }
    ensures size { length weights.new ≡ length lines.now }
    ensures light { IsTrue result → total_weight lines.now < 2 ^ 16 }
    ensures noted { IsTrue result → AreWeights weights.new lines.now }
{
    let mut sum: u16 = 0;
    for (l, line) in lines.iter().enumerate() {
        if line.weight > u64::from(u16::MAX - sum) {
            return false;
        }
        weights[l] = line.weight as u16;
        sum += line.weight as u16;
    }
    true
}

// The weight of the lines that have the first alternative at a lower place than the second. It is added in 16 bits,
// so that a processor adds for many lines at once.
fn light_weight_before(first: &[u16], second: &[u16], weights: &[u16]) -> u16
    requires first { length first.now ≡ length weights.now }
    requires second { length second.now ≡ length weights.now }
    requires room { weight_before (length weights.now) first.now second.now weights.now < 2 ^ 16 }
    ensures { result ≡ weight_before (length weights.now) first.now second.now weights.now }
{
    let mut sum: u16 = 0;
    for l in 0..weights.len() {
        let weight = weights[l];
        sum += if first[l] < second[l] { weight } else { 0 };
    }
    sum
}

// The same in 64 bits.
fn heavy_weight_before(first: &[u16], second: &[u16], weights: &[u64]) -> u64
    requires first { length first.now ≡ length weights.now }
    requires second { length second.now ≡ length weights.now }
    requires room { weight_before (length weights.now) first.now second.now weights.now < 2 ^ 64 }
    ensures { result ≡ weight_before (length weights.now) first.now second.now weights.now }
{
    let mut sum: u64 = 0;
    for l in 0..weights.len() {
        let weight = weights[l];
        sum += if first[l] < second[l] { weight } else { 0 };
    }
    sum
}

// The same, in 16 bits where the weights of the block are noted so.
fn block_weight_before(
    first: &[u16],
    second: &[u16],
    light: &[u16],
    heavy: &[u64],
    is_light: bool,
) -> u64
    requires first { length first.now ≡ length heavy.now }
    requires second { length second.now ≡ length heavy.now }
    requires light { length light.now ≡ length heavy.now }
    requires same { IsTrue is_light → weight_before (length light.now) first.now second.now light.now
        ≡ weight_before (length heavy.now) first.now second.now heavy.now }
    requires small { IsTrue is_light → weight_before (length light.now) first.now second.now light.now < 2 ^ 16 }
    requires room { weight_before (length heavy.now) first.now second.now heavy.now < 2 ^ 64 }
    ensures { result ≡ weight_before (length heavy.now) first.now second.now heavy.now }
{
    if is_light {
        u64::from(light_weight_before(first, second, light))
    } else {
        heavy_weight_before(first, second, heavy)
    }
}

// Adds to the row of x, for x and what has a greater number, what the lines give.
fn add_row(
    row: &mut [u64],
    x: u16,
    lines: &[Entry],
    places: &[u16],
    light: &[u16],
    heavy: &[u64],
    is_light: bool,
)
    requires row { IsAlternative (length row.old) x }
    requires known { All (λ line. order_fault (length row.old) line.order ≡ None) lines.now }
    requires enough { length row.old * length lines.now ≤ length places.now }
    requires places { ArePlaces (length row.old) (length lines.now) (length lines.now) places.now lines.now }
    requires light_size { length light.now ≡ length lines.now }
    requires light_sum { IsTrue is_light → total_weight lines.now < 2 ^ 16 }
    requires light { IsTrue is_light → AreWeights light.now lines.now }
    requires heavy_size { length heavy.now ≡ length lines.now }
    requires heavy { AreWeights heavy.now lines.now }
    requires room { (b : ℕ) → IsAlternative (length row.old) b → x ≤ b
        → slice_index row.old (b - 1) + pairwise_weight lines.now x b < 2 ^ 64 }
    ensures added { (b : ℕ) → IsAlternative (length row.old) b → x ≤ b
        → slice_index row.new (b - 1) ≡ slice_index row.old (b - 1) + pairwise_weight lines.now x b }
{
    let n = lines.len();
    let start = (usize::from(x) - 1) * n;
    let first = &places[start..start + n];
    for y in usize::from(x)..row.len() {
        let second = &places[y * n..y * n + n];
        row[y] += block_weight_before(first, second, light, heavy, is_light);
    }
}

// Adds what the lines give, one row after another.
fn add_rows(
    table: &mut [u64],
    m: u16,
    lines: &[Entry],
    places: &[u16],
    light: &[u16],
    heavy: &[u64],
    is_light: bool,
)
    requires size { length table.old ≡ m * m }
    requires few { m ≤ limit }
    requires known { All (λ line. order_fault m line.order ≡ None) lines.now }
    requires enough { m * length lines.now ≤ length places.now }
    requires places { ArePlaces m (length lines.now) (length lines.now) places.now lines.now }
    requires light_size { length light.now ≡ length lines.now }
    requires light_sum { IsTrue is_light → total_weight lines.now < 2 ^ 16 }
    requires light { IsTrue is_light → AreWeights light.now lines.now }
    requires heavy_size { length heavy.now ≡ length lines.now }
    requires heavy { AreWeights heavy.now lines.now }
    requires room { (a b : ℕ) → IsAlternative m a → IsAlternative m b → a ≤ b
        → cell table.old m a b + pairwise_weight lines.now a b < 2 ^ 64 }
    ensures size { length table.new ≡ m * m }
    ensures added { HoldsFrom m table.new (λ a b. cell table.old m a b + pairwise_weight lines.now a b) }
{
    for x in 1..m + 1 {
        let start = usize::from(x - 1) * usize::from(m);
        let row = &mut table[start..start + usize::from(m)];
        add_row(row, x, lines, places, light, heavy, is_light);
    }
}

// Adds what each of the lines gives.
fn fill_block(table: &mut [u64], m: u16, lines: &[Entry], places: &mut [u16])
    requires size { length table.old ≡ m * m }
    requires few { m ≤ limit }
    requires short { length lines.now ≤ BLOCK }
    requires enough { m * length lines.now ≤ length places.old }
    requires known { All (λ line. order_fault m line.order ≡ None) lines.now }
    requires room { (a b : ℕ) → IsAlternative m a → IsAlternative m b → a ≤ b
        → cell table.old m a b + pairwise_weight lines.now a b < 2 ^ 64 }
    ensures size { length table.new ≡ m * m }
    ensures places { length places.new ≡ length places.old }
    ensures added { HoldsFrom m table.new (λ a b. cell table.old m a b + pairwise_weight lines.now a b) }
{
    find_all(places, m, lines);
    let mut light = [0; BLOCK];
    let light = &mut light[..lines.len()];
    let mut heavy = [0; BLOCK];
    let heavy = &mut heavy[..lines.len()];
    let is_light = note_light_weights(light, lines);
    note_weights(heavy, lines);
    add_rows(table, m, lines, places, light, heavy, is_light);
}

// Fills the half of a table of zeros in which the first alternative isn't greater, one block of lines after another.
fn fill_by_blocks(table: &mut [u64], m: u16, lines: &[Entry], places: &mut [u16])
    requires size { length table.old ≡ m * m }
    requires zeros { Holds m table.old (λ a b. 0) }
    requires enough { BLOCK * m ≤ length places.old }
    requires known { IsProfile (record { alternatives = m; lines = lines.now }) }
    ensures size { length table.new ≡ m * m }
    ensures filled { HoldsFrom m table.new (pairwise_weight lines.now) }
{
    let mut start = 0;
    while start < lines.len() {
        let end = start + (lines.len() - start).min(BLOCK);
        fill_block(table, m, &lines[start..end], places);
        start = end;
    }
}

// Writes the row of x below x: of each pair, the voters that don't put it the other way.
fn complete_row(table: &mut [u64], m: u16, x: u16, voters: u64)
    requires size { length table.old ≡ m * m }
    requires row { IsAlternative m x }
    requires room { (b : ℕ) → IsAlternative m b → b ≤ x → cell table.old m b x ≤ voters }
    ensures size { length table.new ≡ m * m }
    ensures written { Holds m table.new (λ a b. if nat_eq a x then
        (if nat_lt b x then voters - cell table.old m b x else cell table.old m a b) else cell table.old m a b) }
{
    for y in 1..x {
        table[index(m, x, y)] = voters - table[index(m, y, x)];
    }
}

// Writes the half of a table in which the first alternative is greater, from the other half.
fn complete(table: &mut [u64], m: u16, voters: u64)
    requires size { length table.old ≡ m * m }
    requires few { m ≤ limit }
    requires room { (a b : ℕ) → IsAlternative m a → IsAlternative m b → a ≤ b → cell table.old m a b ≤ voters }
    ensures size { length table.new ≡ m * m }
    ensures written { Holds m table.new (λ a b. if nat_lt b a then voters - cell table.old m b a
        else cell table.old m a b) }
{
    for x in 1..m + 1 {
        complete_row(table, m, x, voters);
    }
}

/// Fills a table of zeros, given the number of voters. One half is filled in blocks of lines, one row after another
/// in each, by the places that each line gives the alternatives; the other half is what is left of the voters. It
/// takes memory for the places of a block.
pub fn fill(
    alloc: Global,
    table: &mut [u64],
    m: u16,
    lines: &[Entry],
    voters: u64,
) -> Result<(), AllocError>
    requires size { length table.old ≡ m * m }
    requires zeros { Holds m table.old (λ a b. 0) }
    requires known { IsProfile (record { alternatives = m; lines = lines.now }) }
    requires voters { voters ≡ total_weight lines.now }
    ensures { OnOk result (IsTable m table.new lines.now) }
{
    let mut places = vec![in alloc; 0u16; BLOCK * usize::from(m)]?;
    fill_by_blocks(table, m, lines, &mut places);
    complete(table, m, voters);
    Ok(())
}
