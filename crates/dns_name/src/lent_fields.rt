// The fields of record data, lent: what is composed, compared, ordered and hashed is written once over them.
ghost use Rattle.std.specs.Prelude.{◌≡◌, ◌∷◌, [], ◌++◌, OnOk, OnErr, length, take};
ghost use Rattle.dns_name.specs.Records.{field_wire, data_wire};
ghost use Rattle.dns_name.specs.Records.Field.{Octets, DomainName};
ghost use Rattle.dns_name.specs.LentFields.{numbers_wire, field_of, fields_in};

use crate::to_name::Labelled;
use std::alloc::AllocError;

/// Numbers as they are sent, which data have in another form.
#[derive(Drop)]
pub enum Numbers {
    Absent,
    Two([u8; 2]),
    Four([u8; 4]),
    Six([u8; 6]),
    Twenty([u8; 20]),
}

impl Numbers {
    /// The octets of the numbers.
    pub fn as_slice(&self) -> &[u8]
        ensures { result.now ≡ numbers_wire self.now }
    {
        match self {
            Numbers::Absent => &[],
            Numbers::Two(octets) => octets,
            Numbers::Four(octets) => octets,
            Numbers::Six(octets) => octets,
            Numbers::Twenty(octets) => octets,
        }
    }
}

/// A field of RDATA, lent.
#[derive(Drop)]
pub enum LentField<'a, N: Labelled> {
    /// Octets: numbers, and after them what is lent.
    Octets(Numbers, &'a [u8]),
    /// A domain name.
    DomainName(&'a N),
}

impl<'a, N: Labelled> LentField<'a, N> {
    /// Octets that are numbers alone.
    #[tactic(auto, using(crate::proofs::Writing::and_nothing))]
    pub fn numbers(numbers: Numbers) -> LentField<'a, N>
        ensures { field_of N.labels result ≡ Octets (numbers_wire numbers) }
    {
        LentField::Octets(numbers, &[])
    }

    #[tactic(auto, using(crate::proofs::Writing::begins, crate::proofs::Writing::still_begins, std::proofs::lemmas::List::append_assoc))]
    fn compose(&self, out: &mut Vec<u8>) -> Result<(), AllocError>
        ensures ok { OnOk result (out.new.items ≡ out.old.items ++ field_wire (field_of N.labels self.now)) }
        ensures begins { take (length out.old.items) out.new.items ≡ out.old.items }
    {
        match self {
            LentField::Octets(numbers, octets) => {
                out.extend_from_slice(numbers.as_slice())?;
                out.extend_from_slice(octets)
            }
            LentField::DomainName(name) => name.compose(out),
        }
    }
}

/// The fields of RDATA, lent: there are one, two or three.
#[derive(Drop)]
pub enum LentFields<'a, N: Labelled> {
    One(LentField<'a, N>),
    Two(LentField<'a, N>, LentField<'a, N>),
    Three(LentField<'a, N>, LentField<'a, N>, LentField<'a, N>),
}

impl<'a, N: Labelled> LentFields<'a, N> {
    /// Octets alone.
    pub fn octets(octets: &'a [u8]) -> LentFields<'a, N>
        ensures { fields_in N.labels result ≡ Octets octets.now ∷ [] }
    {
        LentFields::One(LentField::Octets(Numbers::Absent, octets))
    }

    /// A name alone.
    pub fn name(name: &'a N) -> LentFields<'a, N>
        ensures { fields_in N.labels result ≡ DomainName (N.labels name.now) ∷ [] }
    {
        LentFields::One(LentField::DomainName(name))
    }

    #[tactic(auto, using(crate::proofs::Writing::still_begins, std::proofs::lemmas::List::append_assoc))]
    fn compose_parts(&self, out: &mut Vec<u8>) -> Result<(), AllocError>
        ensures ok { OnOk result (out.new.items ≡ out.old.items ++ data_wire (fields_in N.labels self.now)) }
        ensures begins { take (length out.old.items) out.new.items ≡ out.old.items }
    {
        match self {
            LentFields::One(first) => first.compose(out),
            LentFields::Two(first, second) => {
                first.compose(out)?;
                second.compose(out)
            }
            LentFields::Three(first, second, third) => {
                first.compose(out)?;
                second.compose(out)?;
                third.compose(out)
            }
        }
    }

    /// The fields at the end of `out`, without compression. Without memory `out` stays as it was.
    pub fn compose(&self, out: &mut Vec<u8>) -> Result<(), AllocError>
        ensures ok { OnOk result (out.new.items ≡ out.old.items ++ data_wire (fields_in N.labels self.now)) }
        ensures err { OnErr result (out.new.items ≡ out.old.items) }
    {
        let start = out.as_slice().len();
        let composed = self.compose_parts(out);
        if composed.is_err() {
            out.truncate(start);
        }
        composed
    }
}
