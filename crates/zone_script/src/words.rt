//! The program's words.
ghost use Rattle.std.specs.Prelude.{◌≡◌, ◌≢◌, ◌≤◌, [], ◌∷◌, ℕ, List, IfSome, IfNone, Some, map, option_and_then, option_map, string_bytes};
ghost use Rattle.zone_model.specs.TransferText.{Mode};
ghost use Rattle.zone_script.specs.ScriptLines.{number_of};
ghost use Rattle.zone_script.specs.Words.{form_of, mode_of, with_readers, with_sizes, between, Transfer, Generate};

use crate::numbers::{number_below, number_u64};
use xfr_services::XfrMode;

/// The kind of transfer that the words ask for, `axfr` or `ixfr`, and beside how many reader threads: none without a number, else 0 to 16.
pub fn transfer_of(words: &[String]) -> Option<(XfrMode, u64)>
    ensures asked { IfSome result (λ t. form_of (map string_bytes words.now) ≡ Some (Transfer (mode_of t.0) t.1)) }
    ensures few { IfSome result (λ t. t.1 ≤ 16) }
    ensures other { IfNone result ((m : Mode) (readers : ℕ) → form_of (map string_bytes words.now) ≢ Some (Transfer m readers)) }
{
    match words {
        [word] => transfer_alone(word),
        [word, readers] => transfer_beside(word, readers),
        _ => None,
    }
}

/// The same of one word.
fn transfer_alone(word: &String) -> Option<(XfrMode, u64)>
    ensures asked { IfSome result (λ t. form_of (string_bytes word.now ∷ []) ≡ Some (Transfer (mode_of t.0) t.1)) }
    ensures few { IfSome result (λ t. t.1 ≤ 16) }
    ensures other { IfNone result ((m : Mode) (readers : ℕ) → form_of (string_bytes word.now ∷ []) ≢ Some (Transfer m readers)) }
{
    match mode_of_word(word) {
        Some(mode) => Some((mode, 0)),
        None => None,
    }
}

/// The same of two words.
fn transfer_beside(word: &String, readers: &String) -> Option<(XfrMode, u64)>
    ensures asked { IfSome result (λ t. form_of (string_bytes word.now ∷ string_bytes readers.now ∷ []) ≡ Some (Transfer (mode_of t.0) t.1)) }
    ensures few { IfSome result (λ t. t.1 ≤ 16) }
    ensures other { IfNone result ((m : Mode) (k : ℕ) → form_of (string_bytes word.now ∷ string_bytes readers.now ∷ []) ≢ Some (Transfer m k)) }
{
    match mode_of_word(word) {
        Some(mode) => match number_below(17, readers.as_bytes()) {
            Some(readers) => Some((mode, readers)),
            None => None,
        },
        None => None,
    }
}

/// The kind of transfer that the first word asks for.
#[tactic(auto, using(crate::proofs::WordForms::is_axfr, crate::proofs::WordForms::is_ixfr, crate::proofs::WordForms::is_other))]
fn mode_of_word(word: &String) -> Option<XfrMode>
    ensures asked { IfSome result (λ m. (more : List (List ℕ)) → form_of (string_bytes word.now ∷ more) ≡ with_readers (mode_of m) more) }
    ensures other { IfNone result ((more : List (List ℕ)) (m : Mode) (readers : ℕ) → form_of (string_bytes word.now ∷ more) ≢ Some (Transfer m readers)) }
{
    if word.as_str() == "axfr" {
        Some(XfrMode::Axfr)
    } else if word.as_str() == "ixfr" {
        Some(XfrMode::Ixfr)
    } else {
        None
    }
}

/// How many hosts, 1 to 100,000, and which seed the words give the zone that is made from numbers: `gen N SEED`.
pub fn generated_of(words: &[String]) -> Option<(u32, u64)>
    ensures asked { IfSome result (λ g. form_of (map string_bytes words.now) ≡ Some (Generate g.0 g.1)) }
    ensures some { IfSome result (λ g. 1 ≤ g.0) }
    ensures most { IfSome result (λ g. g.0 ≤ 100000) }
    ensures other { IfNone result ((n seed : ℕ) → form_of (map string_bytes words.now) ≢ Some (Generate n seed)) }
{
    match words {
        [word, count, seed] => generated_of_three(word, count, seed),
        _ => None,
    }
}

/// The same of three words.
#[tactic(auto, using(crate::proofs::WordForms::is_gen, crate::proofs::WordForms::is_not_gen))]
fn generated_of_three(word: &String, count: &String, seed: &String) -> Option<(u32, u64)>
    ensures asked { IfSome result (λ g. form_of (string_bytes word.now ∷ string_bytes count.now ∷ string_bytes seed.now ∷ []) ≡ Some (Generate g.0 g.1)) }
    ensures some { IfSome result (λ g. 1 ≤ g.0) }
    ensures most { IfSome result (λ g. g.0 ≤ 100000) }
    ensures other { IfNone result ((n m : ℕ) → form_of (string_bytes word.now ∷ string_bytes count.now ∷ string_bytes seed.now ∷ []) ≢ Some (Generate n m)) }
{
    if word.as_str() == "gen" {
        sizes_of(count.as_bytes(), seed.as_bytes())
    } else {
        None
    }
}

/// The two numbers of the words after `gen`.
fn sizes_of(count: &[u8], seed: &[u8]) -> Option<(u32, u64)>
    ensures value { option_map (λ g. Generate g.0 g.1) result ≡ with_sizes (count.now ∷ seed.now ∷ []) }
    ensures some { IfSome result (λ g. 1 ≤ g.0) }
    ensures most { IfSome result (λ g. g.0 ≤ 100000) }
{
    let count = count_of(count)?;
    let seed = number_u64(seed)?;
    Some((count, seed))
}

/// How many hosts the digits say, 1 to 100,000.
#[tactic(auto, using(crate::proofs::WordForms::no_count, crate::proofs::WordForms::zero_count, crate::proofs::WordForms::some_count))]
fn count_of(digits: &[u8]) -> Option<u32>
    ensures value { result ≡ option_and_then (between 1 100000) (number_of digits.now) }
    ensures some { IfSome result (λ n. 1 ≤ n) }
    ensures most { IfSome result (λ n. n ≤ 100000) }
{
    let count = number_below(100_001, digits)?;
    if count == 0 {
        return None;
    }
    Some(count as u32)
}
