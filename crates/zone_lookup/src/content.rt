// The kinds of answer, lent.
ghost use Rattle.std.specs.Prelude.{◌≡◌, IfSome, option_copied};
ghost use Rattle.dns_numbers.specs.Codes.{type_ns, type_cname, type_ds};
ghost use Rattle.zone_model.specs.Answer.{set_or_no_data};
ghost use Rattle.zone_model.specs.Answer.Answer.{Referral, Alias, NameError};
ghost use Rattle.zone_values.specs.TypedEntries.{untyped};
ghost use Rattle.zone_lookup.specs.Answers.{answer_of, HasItsTypes};

use dns_name::KeyName;
use dns_numbers::Rtype;
use std::marker::Model;
use zone_values::Rrset;

/// The five kinds of answer (RFC 1034, 4.3.2; RFC 2308, 2).
#[derive(Drop)]
pub(crate) enum Content<'v> {
    /// A zone cut stands at the name or above it: the cut's name in lower case, its NS set and its DS set.
    Referral(KeyName, &'v Rrset, Option<&'v Rrset>),
    /// The name's CNAME set, whatever type was asked for.
    Alias(&'v Rrset),
    /// The set of this type.
    Found(Rtype, &'v Rrset),
    /// The name exists and has no set of the type.
    NoData,
    /// The name doesn't exist.
    NameError,
}

/// An answer, its sets lent.
#[derive(Drop)]
pub(crate) struct LentAnswer<'v> {
    content: Content<'v>,
}

impl<'v> Model for LentAnswer<'v> {
    ghost use Rattle.zone_model.specs.Answer.{Answer};
    ghost use Rattle.zone_lookup.specs.Answers.{answer_of, HasItsTypes};

    ghost Value = { Answer };

    ghost view = { λ a. answer_of a.content };

    ghost invariant = { λ a. HasItsTypes a.content };
}

impl<'v> LentAnswer<'v> {
    /// A referral to the servers of a zone cut.
    pub(crate) fn referral(
        owner: KeyName,
        servers: &'v Rrset,
        signer: Option<&'v Rrset>,
    ) -> LentAnswer<'v>
        requires servers { servers.now.rtype ≡ type_ns }
        requires signer { IfSome signer (λ s. s.now.rtype ≡ type_ds) }
        ensures { result ≡ Referral owner servers.now.contents (untyped (option_copied signer.entry)) }
    {
        LentAnswer {
            content: Content::Referral(owner, servers, signer),
        }
    }

    /// The CNAME set of the name.
    pub(crate) fn alias(target: &'v Rrset) -> LentAnswer<'v>
        requires { target.now.rtype ≡ type_cname }
        ensures { result ≡ Alias target.now.contents }
    {
        LentAnswer {
            content: Content::Alias(target),
        }
    }

    /// The set of the type, where there is one.
    pub(crate) fn set_or_no_data(rtype: Rtype, found: Option<&'v Rrset>) -> LentAnswer<'v>
        requires { IfSome found (λ s. s.now.rtype ≡ rtype) }
        ensures { result ≡ set_or_no_data rtype (untyped (option_copied found.entry)) }
    {
        match found {
            Some(found) => LentAnswer {
                content: Content::Found(rtype, found),
            },
            None => LentAnswer {
                content: Content::NoData,
            },
        }
    }

    /// The name doesn't exist.
    pub(crate) fn name_error() -> LentAnswer<'v>
        ensures { result ≡ NameError }
    {
        LentAnswer {
            content: Content::NameError,
        }
    }

    /// The kind of answer with its sets.
    pub(crate) fn into_content(self) -> Content<'v>
        ensures answer { answer_of result ≡ self.entry }
        ensures types { HasItsTypes result }
    {
        self.content
    }
}
