// Whether octets are those of other values as they are sent.
ghost use Rattle.std.specs.Prelude.{◌≡◌, ◌≤◌, ◌∷◌, [], ◌++◌, ℕ, List, MatchOption, length};
ghost use Rattle.std.specs.Str.{bytes_eq};
ghost use Rattle.dns_name.specs.Names.{label_wire, name_wire};
ghost use Rattle.dns_name.specs.Records.{field_wire, data_wire};
ghost use Rattle.dns_name.specs.LentFields.{field_of, fields_in};

use dns_name::{Labelled, LentField, LentFields};

/// What is left of the octets after `front`, if they begin with it.
#[tactic(auto, using(crate::proofs::Fronts::too_short, crate::proofs::Fronts::other_start))]
pub(crate) fn after_front<'o>(octets: &'o [u8], front: &[u8]) -> Option<&'o [u8]>
    ensures { MatchOption result
        ((rest : List ℕ) → octets.now ≡ front.now ++ rest → ⊥)
        (λ rest. octets.now ≡ front.now ++ rest.now) }
{
    if octets.len() < front.len() {
        return None;
    }
    let (start, rest) = octets.split_at(front.len());
    if start == front { Some(rest) } else { None }
}

/// What is left of the octets after the name as it is sent without compression, if they begin with it.
pub(crate) fn after_name<'o, N: Labelled>(octets: &'o [u8], name: &N) -> Option<&'o [u8]>
    ensures { MatchOption result
        ((rest : List ℕ) → octets.now ≡ name_wire (N.labels name.now) ++ rest → ⊥)
        (λ rest. octets.now ≡ name_wire (N.labels name.now) ++ rest.now) }
{
    let mut rest = octets;
    let mut labels = name.iter_labels();
    while let Some(label) = labels.next() {
        match after_label(rest, label.as_slice()) {
            Some(after) => rest = after,
            None => return None,
        }
    }
    after_front(rest, &[0])
}

/// What is left of the octets after the label as it is sent, if they begin with it.
fn after_label<'o>(octets: &'o [u8], label: &[u8]) -> Option<&'o [u8]>
    requires { length label.now ≤ 63 }
    ensures { MatchOption result
        ((rest : List ℕ) → octets.now ≡ label_wire label.now ++ rest → ⊥)
        (λ rest. octets.now ≡ label_wire label.now ++ rest.now) }
{
    after_both(octets, &[label.len() as u8], label)
}

/// What is left of the octets after two others, if they begin with both.
#[tactic(auto, using(crate::proofs::Fronts::first_absent, crate::proofs::Fronts::second_absent, crate::proofs::Fronts::both_there))]
fn after_both<'o>(octets: &'o [u8], first: &[u8], second: &[u8]) -> Option<&'o [u8]>
    ensures { MatchOption result
        ((rest : List ℕ) → octets.now ≡ (first.now ++ second.now) ++ rest → ⊥)
        (λ rest. octets.now ≡ (first.now ++ second.now) ++ rest.now) }
{
    let Some(after) = after_front(octets, first) else {
        return None;
    };
    let Some(rest) = after_front(after, second) else {
        return None;
    };
    Some(rest)
}

/// What is left of the octets after the field as it is sent without compression, if they begin with it.
fn after_field<'o, N: Labelled>(octets: &'o [u8], field: &LentField<'_, N>) -> Option<&'o [u8]>
    ensures { MatchOption result
        ((rest : List ℕ) → octets.now ≡ field_wire (field_of N.labels field.now) ++ rest → ⊥)
        (λ rest. octets.now ≡ field_wire (field_of N.labels field.now) ++ rest.now) }
{
    match field {
        LentField::Octets(numbers, lent) => after_both(octets, numbers.as_slice(), lent),
        LentField::DomainName(name) => after_name(octets, *name),
    }
}

/// Whether the octets are those of the field as it is sent without compression.
#[tactic(auto, using(crate::proofs::Fronts::one_front, crate::proofs::Fronts::wrong_front))]
fn is_one<N: Labelled>(octets: &[u8], field: &LentField<'_, N>) -> bool
    ensures { result ≡ bytes_eq (data_wire (field_of N.labels field.now ∷ [])) octets.now }
{
    match after_field(octets, field) {
        Some(rest) => rest.is_empty(),
        None => false,
    }
}

/// Whether the octets are those of two fields.
#[tactic(auto, using(crate::proofs::Fronts::one_front, crate::proofs::Fronts::wrong_front))]
fn are_two<N: Labelled>(octets: &[u8], first: &LentField<'_, N>, second: &LentField<'_, N>) -> bool
    ensures { result
        ≡ bytes_eq (data_wire (field_of N.labels first.now ∷ field_of N.labels second.now ∷ [])) octets.now }
{
    match after_field(octets, first) {
        Some(rest) => is_one(rest, second),
        None => false,
    }
}

/// Whether the octets are those of three fields.
#[tactic(auto, using(crate::proofs::Fronts::one_front, crate::proofs::Fronts::wrong_front))]
fn are_three<N: Labelled>(
    octets: &[u8],
    first: &LentField<'_, N>,
    second: &LentField<'_, N>,
    third: &LentField<'_, N>,
) -> bool
    ensures { result
        ≡ bytes_eq
        (data_wire (field_of N.labels first.now ∷ field_of N.labels second.now
        ∷ field_of N.labels third.now ∷ []))
        octets.now }
{
    match after_field(octets, first) {
        Some(rest) => are_two(rest, second, third),
        None => false,
    }
}

/// Whether the octets are those of the fields as they are sent, one after another and without compression.
pub(crate) fn are_fields<N: Labelled>(octets: &[u8], fields: &LentFields<'_, N>) -> bool
    ensures { result ≡ bytes_eq (data_wire (fields_in N.labels fields.now)) octets.now }
{
    match fields {
        LentFields::One(first) => is_one(octets, first),
        LentFields::Two(first, second) => are_two(octets, first, second),
        LentFields::Three(first, second, third) => are_three(octets, first, second, third),
    }
}
