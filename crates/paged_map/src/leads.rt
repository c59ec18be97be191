// Guesses where keys stand, from a few octets of each. No contract speaks of them: a search tests the place that it is told, and goes on without where
// that is another one.
use std::alloc::{AllocError, Global};

/// Eight octets of each of some keys in order: those behind the octets that all of them begin with.
#[derive(Drop)]
pub(crate) struct Leads {
    // How many octets the keys begin with in common.
    common: usize,
    leads: Vec<u64>,
}

impl Leads {
    /// Those of no keys.
    pub(crate) fn new(alloc: Global) -> Leads {
        Leads {
            common: 0,
            leads: Vec::new(alloc),
        }
    }

    /// How many keys they are of.
    pub(crate) fn len(&self) -> usize {
        self.leads.len()
    }

    /// How many of the keys stand before one, by these octets alone.
    pub(crate) fn count_before(&self, key: &[u8]) -> usize {
        let lead = lead_of(key, self.common);
        if self.are_all_below(lead) {
            return self.leads.len();
        }
        self.leads
            .partition_point(|other: &u64| -> bool { *other < lead })
    }

    /// How many of the keys don't stand after one, by these octets alone.
    pub(crate) fn count_up_to(&self, key: &[u8]) -> usize {
        let lead = lead_of(key, self.common);
        if self.are_all_below(lead) {
            return self.leads.len();
        }
        self.leads
            .partition_point(|other: &u64| -> bool { *other <= lead })
    }

    /// Whether each of them is below a number. For keys that come in order, this spares the searches.
    fn are_all_below(&self, lead: u64) -> bool {
        match self.leads.last() {
            Some(last) => *last < lead,
            None => true,
        }
    }

    /// Forgets all keys; those that come begin as these two do.
    pub(crate) fn begin(&mut self, first: &[u8], last: &[u8]) {
        self.leads.clear();
        self.common = count_common(first, last);
    }

    /// Takes a key up after the others. Without memory it is left out.
    pub(crate) fn push(&mut self, key: &[u8]) {
        let _ = self.leads.push(lead_of(key, self.common));
    }

    /// Takes a key up at a place, if it begins as this other one does; says whether it did.
    pub(crate) fn insert(&mut self, at: usize, key: &[u8], other: &[u8]) -> bool {
        if at > self.leads.len() || count_common(key, other) < self.common {
            return false;
        }
        self.leads.insert(at, lead_of(key, self.common)).is_ok()
    }

    /// Forgets the key at a place.
    pub(crate) fn remove(&mut self, at: usize) {
        if at < self.leads.len() {
            let _ = self.leads.remove(at);
        }
    }
}

impl Clone for Leads {
    fn clone(&self) -> Result<Leads, AllocError> {
        Ok(Leads {
            common: self.common,
            leads: self.leads.clone()?,
        })
    }
}

/// With how many octets two keys begin in common, counted by eight and then one by one.
fn count_common(one: &[u8], other: &[u8]) -> usize {
    let (mut ones, mut others) = (one, other);
    let mut common: usize = 0;
    while let Some((left, more)) = ones.split_first_chunk::<8>()
        && let Some((right, others_more)) = others.split_first_chunk::<8>()
        && u64::from_be_bytes(*left) == u64::from_be_bytes(*right)
    {
        common = common.saturating_add(8);
        ones = more;
        others = others_more;
    }
    common.saturating_add(count_common_octets(ones, others))
}

/// The same, one by one.
fn count_common_octets(one: &[u8], other: &[u8]) -> usize {
    let most = one.len().min(other.len());
    for i in 0..most {
        if one[i] != other[i] {
            return i;
        }
    }
    most
}

/// Eight octets of a key from a place on, as a number whose order is theirs. A key that ends there goes on with 0.
fn lead_of(key: &[u8], from: usize) -> u64 {
    let Some(rest) = key.get(from..) else {
        return 0;
    };
    if let Some(octets) = rest.first_chunk::<8>() {
        return u64::from_be_bytes(*octets);
    }
    match key.last_chunk::<8>() {
        Some(octets) => start_with_last(u64::from_be_bytes(*octets), rest.len()),
        None => number_of(rest),
    }
}

/// A number whose last octets, so many, come first, and 0 after them.
fn start_with_last(number: u64, count: usize) -> u64 {
    if count == 0 || count > 8 {
        return 0;
    }
    number << ((8 - count) * 8)
}

/// The same of eight octets at most.
fn number_of(octets: &[u8]) -> u64 {
    let mut lead = 0;
    for octet in octets.iter() {
        lead = lead << 8 | u64::from(*octet);
    }
    for _ in octets.len()..8 {
        lead = lead << 8;
    }
    lead
}
