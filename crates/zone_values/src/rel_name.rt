// The labels of a name below a base.
ghost use Rattle.std.specs.Prelude.{◌≡◌, ◌≤◌, ◌-◌, true, false, IfOk, OnErr, length, slice_get};
ghost use Rattle.dns_name.specs.Names.{under};
ghost use Rattle.zone_values.specs.Relative.{labels_below};

use crate::errors::OutOfZone;
use dns_name::{Label, Labelled, Labels, ToName};
use std::marker::Model;

/// The labels of a name left of a base, from the right.
#[derive(Drop)]
pub struct RelNameRevIter<'a, N: Labelled> {
    name: &'a N,
    left: usize,
}

impl<'a, N: Labelled> Model for RelNameRevIter<'a, N> {
    ghost use Rattle.std.specs.Prelude.{ℕ, List, ◌≤◌, length, take, reverse};

    ghost Value = { List (List ℕ) };

    ghost view = { λ i. reverse (take i.left (N.labels i.name.now)) };

    ghost invariant = { λ i. i.left ≤ length (N.labels i.name.now) };
}

impl<'a, N: Labelled> Iterator for RelNameRevIter<'a, N> {
    type Item = Label<'a>;

    ghost use Rattle.std.specs.Iterator.{YieldsFirst, item_count};

    ghost next_gives = { YieldsFirst (λ i. i) };

    ghost remaining = { item_count (λ i. i) };

    fn next(&mut self) -> Option<Label<'a>> {
        if self.left == 0 {
            return None;
        }
        self.left -= 1;
        label_at(self.name.iter_labels(), self.left)
    }
}

/// The labels of a name left of the base, from the right, if the name is the base or below it, ASCII case aside (RFC 1034, 3.1).
pub fn rel_name_rev_iter<'a, B: Labelled, N: ToName>(
    base: &B,
    name: &'a N,
) -> Result<RelNameRevIter<'a, N>, OutOfZone>
    ensures ok { IfOk result (λ i. (under (N.labels name.now) (B.labels base.now) ≡ true) × (i ≡ labels_below (B.labels base.now) (N.labels name.now))) }
    ensures err { OnErr result (under (N.labels name.now) (B.labels base.now) ≡ false) }
{
    if !name.ends_with(base) {
        return Err(OutOfZone);
    }
    let left = label_count(name).saturating_sub(label_count(base));
    Ok(RelNameRevIter { name, left })
}

/// How many labels a name has, the root label aside.
fn label_count<N: Labelled>(name: &N) -> usize
    ensures { result ≡ length (N.labels name.now) }
{
    name.to_key_name().borrowed().label_count()
}

/// The label at a place, counted from 0.
fn label_at<'a>(labels: Labels<'a>, at: usize) -> Option<Label<'a>>
    ensures { result ≡ slice_get labels.entry at }
{
    let mut rest = labels;
    for step in 0..at {
        let _ = rest.next();
    }
    rest.next()
}
