// Worked examples of TSIG data, proved by computation: equality, order, and parts of the text.
ghost use Rattle.std.specs.Prelude.{◌≡◌, ◌∷◌, [], codes, true, false, Some, None};
ghost use Rattle.std.specs.declared.cmp.Ordering.TheVariants.{Less, Equal, Greater};
ghost use Rattle.tsig_rdata.specs.TsigOrder.{same_tsig, tsig_cmp};
ghost use Rattle.tsig_rdata.specs.CanonicalTsig.{canonical_tsig_cmp};
ghost use Rattle.tsig_rdata.specs.TsigParts.{tsig_with, time_in};
ghost use Rattle.tsig_rdata.specs.TsigText.{absolute_text, base64_text};

/// Names in text, and octets in base64 (RFC 4648, 10).
#[tactic(auto, unfolding(crate::specs::TsigText::base64_text, base64::proofs::OnLiterals::base64_on_literals))]
pub fn texts()
    ensures root { absolute_text [] ≡ codes "." }
    ensures algorithm { absolute_text (codes "hmac-sha256" ∷ []) ≡ codes "hmac-sha256." }
    ensures none { base64_text [] ≡ [] }
    ensures whole { base64_text (0 ∷ 1 ∷ 2 ∷ []) ≡ codes "AAEC" }
    ensures padded { base64_text (codes "foob") ≡ codes "Zm9vYg==" }
{}

/// The time in other octets.
pub fn times()
    ensures six { time_in (0 ∷ 0 ∷ 0 ∷ 0 ∷ 3 ∷ 0xe8 ∷ []) ≡ Some 1000 }
    ensures five { time_in (0 ∷ 0 ∷ 0 ∷ 3 ∷ 0xe8 ∷ []) ≡ None }
{}

/// The algorithm's case doesn't count, any other difference does.
pub fn equality()
    ensures upper { same_tsig (tsig_with (codes "a" ∷ []) 1 2 (3 ∷ []) 4 5 (6 ∷ [])) (tsig_with (codes "A" ∷ []) 1 2 (3 ∷ []) 4 5 (6 ∷ [])) ≡ true }
    ensures algorithm { same_tsig (tsig_with (codes "a" ∷ []) 1 2 (3 ∷ []) 4 5 (6 ∷ [])) (tsig_with (codes "b" ∷ []) 1 2 (3 ∷ []) 4 5 (6 ∷ [])) ≡ false }
    ensures time { same_tsig (tsig_with (codes "a" ∷ []) 1 2 (3 ∷ []) 4 5 (6 ∷ [])) (tsig_with (codes "a" ∷ []) 0 2 (3 ∷ []) 4 5 (6 ∷ [])) ≡ false }
    ensures fudge { same_tsig (tsig_with (codes "a" ∷ []) 1 2 (3 ∷ []) 4 5 (6 ∷ [])) (tsig_with (codes "a" ∷ []) 1 0 (3 ∷ []) 4 5 (6 ∷ [])) ≡ false }
    ensures mac { same_tsig (tsig_with (codes "a" ∷ []) 1 2 (3 ∷ []) 4 5 (6 ∷ [])) (tsig_with (codes "a" ∷ []) 1 2 [] 4 5 (6 ∷ [])) ≡ false }
    ensures id { same_tsig (tsig_with (codes "a" ∷ []) 1 2 (3 ∷ []) 4 5 (6 ∷ [])) (tsig_with (codes "a" ∷ []) 1 2 (3 ∷ []) 0 5 (6 ∷ [])) ≡ false }
    ensures error { same_tsig (tsig_with (codes "a" ∷ []) 1 2 (3 ∷ []) 4 5 (6 ∷ [])) (tsig_with (codes "a" ∷ []) 1 2 (3 ∷ []) 4 0 (6 ∷ [])) ≡ false }
    ensures other { same_tsig (tsig_with (codes "a" ∷ []) 1 2 (3 ∷ []) 4 5 (6 ∷ [])) (tsig_with (codes "a" ∷ []) 1 2 (3 ∷ []) 4 5 []) ≡ false }
{}

/// An earlier field decides before a later one.
pub fn order()
    ensures upper { tsig_cmp (tsig_with (codes "a" ∷ []) 1 2 (3 ∷ []) 4 5 (6 ∷ [])) (tsig_with (codes "A" ∷ []) 1 2 (3 ∷ []) 4 5 (6 ∷ [])) ≡ Equal }
    ensures algorithm { tsig_cmp (tsig_with (codes "a" ∷ []) 1 2 (3 ∷ []) 4 5 (6 ∷ [])) (tsig_with (codes "B" ∷ []) 0 0 [] 0 0 []) ≡ Less }
    ensures time { tsig_cmp (tsig_with (codes "a" ∷ []) 1 2 (3 ∷ []) 4 5 (6 ∷ [])) (tsig_with (codes "a" ∷ []) 2 0 [] 0 0 []) ≡ Less }
    ensures fudge { tsig_cmp (tsig_with (codes "a" ∷ []) 1 2 (3 ∷ []) 4 5 (6 ∷ [])) (tsig_with (codes "a" ∷ []) 1 3 [] 0 0 []) ≡ Less }
    ensures mac { tsig_cmp (tsig_with (codes "a" ∷ []) 1 2 (3 ∷ []) 4 5 (6 ∷ [])) (tsig_with (codes "a" ∷ []) 1 2 (3 ∷ 0 ∷ []) 0 0 []) ≡ Less }
    ensures id { tsig_cmp (tsig_with (codes "a" ∷ []) 1 2 (3 ∷ []) 4 5 (6 ∷ [])) (tsig_with (codes "a" ∷ []) 1 2 (3 ∷ []) 5 0 []) ≡ Less }
    ensures error { tsig_cmp (tsig_with (codes "a" ∷ []) 1 2 (3 ∷ []) 4 5 (6 ∷ [])) (tsig_with (codes "a" ∷ []) 1 2 (3 ∷ []) 4 6 []) ≡ Less }
    ensures other { tsig_cmp (tsig_with (codes "a" ∷ []) 1 2 (3 ∷ []) 4 5 (6 ∷ [])) (tsig_with (codes "a" ∷ []) 1 2 (3 ∷ []) 4 5 (7 ∷ [])) ≡ Less }
{}

/// Canonical order goes by the octets as they are sent, in which case counts and a length stands before its octets; the order of fields
/// doesn't.
pub fn canonical_order()
    ensures same { canonical_tsig_cmp (tsig_with (codes "a" ∷ []) 1 2 (3 ∷ []) 4 5 (6 ∷ [])) (tsig_with (codes "a" ∷ []) 1 2 (3 ∷ []) 4 5 (6 ∷ [])) ≡ Equal }
    ensures upper { canonical_tsig_cmp (tsig_with (codes "a" ∷ []) 1 2 (3 ∷ []) 4 5 (6 ∷ [])) (tsig_with (codes "A" ∷ []) 1 2 (3 ∷ []) 4 5 (6 ∷ [])) ≡ Greater }
    ensures longer_name { canonical_tsig_cmp (tsig_with (codes "b" ∷ []) 1 2 (3 ∷ []) 4 5 (6 ∷ [])) (tsig_with (codes "aa" ∷ []) 0 0 [] 0 0 []) ≡ Less }
    ensures name_by_field { tsig_cmp (tsig_with (codes "b" ∷ []) 1 2 (3 ∷ []) 4 5 (6 ∷ [])) (tsig_with (codes "aa" ∷ []) 0 0 [] 0 0 []) ≡ Greater }
    ensures longer_mac { canonical_tsig_cmp (tsig_with (codes "a" ∷ []) 1 2 (9 ∷ []) 4 5 (6 ∷ [])) (tsig_with (codes "a" ∷ []) 1 2 (3 ∷ 0 ∷ []) 0 0 []) ≡ Less }
    ensures mac_by_field { tsig_cmp (tsig_with (codes "a" ∷ []) 1 2 (9 ∷ []) 4 5 (6 ∷ [])) (tsig_with (codes "a" ∷ []) 1 2 (3 ∷ 0 ∷ []) 0 0 []) ≡ Greater }
{}
