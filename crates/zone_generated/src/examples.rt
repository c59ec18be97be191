// Worked examples of draws and of their hosts, proved by computation.
ghost use Rattle.std.specs.Prelude.{◌≡◌, [], ◌∷◌, length, replicate, codes};
ghost use Rattle.dns_name.specs.Records.{Octets, DomainName};
ghost use Rattle.zone_generated.specs.Generated as generated;
ghost use Rattle.zone_generated.specs.Ranks.{rank};

/// Two hosts that are drawn from 0: 20.5.123.126 at `h1` and 26.8.238.17 at `h0`.
pub fn two_row()
    ensures draws { generated.draws 2 0 ≡ 1442695040888963407 ∷ 1876011003808476466 ∷ [] }
    ensures first { generated.host_address 1442695040888963407 ≡ 20 ∷ 5 ∷ 123 ∷ 126 ∷ [] }
    ensures first_label { generated.host_label 2 1442695040888963407 ≡ codes "h1" }
    ensures second { generated.host_address 1876011003808476466 ≡ 26 ∷ 8 ∷ 238 ∷ 17 ∷ [] }
    ensures second_label { generated.host_label 2 1876011003808476466 ≡ codes "h0" }
    ensures sets { length (generated.generated 2 0).sets ≡ 4 }
{}

/// A single host, whose number is 0 whatever is drawn.
pub fn one_row()
    ensures draws { generated.draws 1 0 ≡ 1442695040888963407 ∷ [] }
    ensures address { generated.host_address 1442695040888963407 ≡ 20 ∷ 5 ∷ 123 ∷ 126 ∷ [] }
    ensures label { generated.host_label 1 1442695040888963407 ≡ codes "h0" }
    ensures zone { generated.generated 1 0 ≡ record {
      apex = codes "example" ∷ [];
      class = 1;
      sets =
          ((codes "example" ∷ [], 2), record { ttl = 3600; items = (DomainName (codes "ns" ∷ codes "example" ∷ []) ∷ []) ∷ [] })
          ∷ ((codes "example" ∷ [], 6), record { ttl = 3600; items = (DomainName [] ∷ DomainName [] ∷ Octets (0 ∷ 0 ∷ 0 ∷ 1 ∷ replicate 16 0) ∷ []) ∷ [] })
          ∷ ((codes "h0" ∷ codes "example" ∷ [], 1), record { ttl = 3600; items = (Octets (20 ∷ 5 ∷ 123 ∷ 126 ∷ []) ∷ []) ∷ [] })
          ∷ [];
    } }
{}

/// Numbers in the order of their digits: 0, 1, 10, 2 and the largest.
#[tactic(auto, unfolding(crate::specs::Ranks::moved_up))]
pub fn rank_row()
    ensures zero { rank 0 ≡ 0 }
    ensures one { rank 1 ≡ 10000000000 }
    ensures ten { rank 10 ≡ 10000000001 }
    ensures two { rank 2 ≡ 20000000000 }
    ensures last { rank 4294967295 ≡ 42949672959 }
{}
