// What knows a zone's class and apex.
use dns_name::StoredName;
use dns_numbers::Class;

/// A zone as the zones of a server know it: by its class and the name of its apex.
pub trait AtApex {
    ghost use Rattle.std.specs.Prelude.{◌≡◌, ℕ};
    ghost use Rattle.dns_name.specs.Names.{Name};

    /// The class.
    ghost class_of: { Self → ℕ };

    /// The name of the apex, as it was given.
    ghost apex_of: { Self → Name };

    /// The class.
    fn class(&self) -> Class
        ensures { result ≡ class_of self.now };

    /// The name of the apex, as it was given.
    fn apex_name(&self) -> &StoredName
        ensures { result.now ≡ apex_of self.now };
}
