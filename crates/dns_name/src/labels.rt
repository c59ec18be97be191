// The labels of a name, one after another.
ghost use Rattle.std.specs.Prelude.{◌≡◌};

use crate::label::Label;
use crate::parsed::ParsedName;
use std::marker::Model;

/// The labels of a name from the left, without the root label.
#[derive(Drop)]
pub struct Labels<'a> {
    rest: ParsedName<'a>,
}

impl<'a> Model for Labels<'a> {
    ghost use Rattle.std.specs.Prelude.{ℕ, List};

    ghost Value = { List (List ℕ) };

    ghost view = { λ i. i.rest };
}

impl<'a> Labels<'a> {
    /// The labels of the name.
    pub fn of(name: ParsedName<'a>) -> Labels<'a>
        ensures { result ≡ name.entry }
    {
        Labels { rest: name }
    }
}

impl<'a> Iterator for Labels<'a> {
    type Item = Label<'a>;

    ghost use Rattle.std.specs.Iterator.{YieldsFirst, item_count};

    ghost next_gives = { YieldsFirst (λ i. i) };

    ghost remaining = { item_count (λ i. i) };

    fn next(&mut self) -> Option<Label<'a>> {
        let (label, rest) = self.rest.split_first()?;
        self.rest = rest;
        Some(label)
    }
}
