// Worked rows of which replies are signed, proved by computation.
ghost use Rattle.std.specs.Prelude.{map, ◌≡◌, [], ◌∷◌, ℕ, List, true, false, Some, None};
ghost use Rattle.xfr_signing.specs.Signing as signed;
ghost use Rattle.xfr_services.specs.declared.services.ServiceFeedback.TheVariants.{BeginTransaction, EndTransaction};
ghost use Rattle.xfr_signing.specs.declared.signing.Signing.TheVariants.{First, All, Done};

/// Which replies are signed: the first alone, and from the begin of a transaction on all, also after its end.
pub fn signing_row()
    ensures begun { map (λ f. signed.begun First f) (None ∷ Some BeginTransaction ∷ Some EndTransaction ∷ []) ≡ First ∷ All ∷ First ∷ [] }
    ensures late { map (λ s. signed.begun s (Some BeginTransaction)) (Done ∷ All ∷ []) ≡ Done ∷ All ∷ [] }
    ensures ended { signed.begun All (Some EndTransaction) ≡ All }
    ensures behind { map signed.behind (First ∷ All ∷ Done ∷ []) ≡ Done ∷ All ∷ Done ∷ [] }
    ensures due { map signed.is_due (First ∷ All ∷ Done ∷ []) ≡ true ∷ true ∷ false ∷ [] }
{}

/// What a reply is signed behind: a first one behind the request alone, a later one behind the MAC of the one before it, also where one had no
/// room and none came in its place (RFC 8945, 5.3.1).
pub fn sequence_row()
    ensures second { (s : signed.Signer) (m : List ℕ) → (signed.signed_step s All None None (Some m)).prior ≡ Some (signed.reply_tsig s None m).mac }
    ensures third { (s : signed.Signer) (prior m : List ℕ) → (signed.signed_step s All (Some prior) None (Some m)).prior ≡ Some (signed.reply_tsig s (Some prior) m).mac }
    ensures passed_over { (s : signed.Signer) (prior : List ℕ) → (signed.signed_step s All (Some prior) None None).prior ≡ Some prior }
{}
