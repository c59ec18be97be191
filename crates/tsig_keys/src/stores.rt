// Where a server finds shared keys (RFC 8945, 5.2.1).
ghost use Rattle.std.specs.Prelude.{◌≡◌};

use crate::Algorithm;
use crate::keys::{Key, KeyRef};
use dns_name::{KeyName, ToName};
use std::collections::HashMap;
use std::sync::Arc;

/// The keys that a server knows: at most one for a name, in any case, and an algorithm (RFC 8945, 5.2.1).
pub trait KeyStore {
    ghost use Rattle.std.specs.Prelude.{◌≡◌, ℕ, List, Option, option_map, IfSome};
    ghost use Rattle.dns_name.specs.Names.{fold};
    ghost use Rattle.tsig_keys.specs.TsigKeys.{TsigKey};
    ghost use Rattle.tsig_keys.specs.Keys.{HasNameAnd};
    ghost use Rattle.tsig_keys.specs.declared.algorithms.Algorithm.{Algorithm};

    type Key: KeyRef;

    ghost key_of: { Self → List (List ℕ) → Algorithm → Option TsigKey };

    /// The key of that name, ASCII case aside, and algorithm, if the store has it.
    fn get_key(&self, name: &KeyName, algorithm: Algorithm) -> Option<Self::Key>
        ensures key { option_map Self.Key.the_key result ≡ key_of self.now (fold name.now) algorithm }
        // A key that is handed out has the name and the algorithm that were asked for.
        ensures asked { IfSome result (λ k. HasNameAnd (Self.Key.the_key k) (fold name.now) algorithm) };
}

/// A store of one key.
impl KeyStore for Key {
    ghost use Rattle.tsig_keys.specs.Keys.{own_key};

    type Key = Key;

    ghost key_of = { own_key };

    fn get_key(&self, name: &KeyName, algorithm: Algorithm) -> Option<Key> {
        if algorithm == self.algorithm() && name.name_eq(self.name()) {
            return Some(self.duplicate());
        }
        None
    }
}

/// A store of many keys, each under its name and algorithm. A key that was put in under another name or algorithm isn't found.
impl KeyStore for HashMap<(KeyName, Algorithm), Key> {
    ghost use Rattle.tsig_keys.specs.Keys.{map_key};

    type Key = Key;

    ghost key_of = { λ m. map_key m.entries };

    fn get_key(&self, name: &KeyName, algorithm: Algorithm) -> Option<Key> {
        match self.get(&(name.duplicate(), algorithm)) {
            Some(key) => key.get_key(name, algorithm),
            None => None,
        }
    }
}

/// A store that is shared.
impl<S: KeyStore> KeyStore for Arc<S> {
    ghost use Rattle.std.specs.Arc.{arc_value};

    type Key = S::Key;

    ghost key_of = { λ a. S.key_of (arc_value a) };

    fn get_key(&self, name: &KeyName, algorithm: Algorithm) -> Option<S::Key> {
        (**self).get_key(name, algorithm)
    }
}
