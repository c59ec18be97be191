// Names one label below others.
ghost use Rattle.std.specs.Prelude.{◌≡◌, ◌≤◌, ◌∷◌, ◌==◌, false, length, IfOk, OnOk, OnErr};
ghost use Rattle.dns_name.specs.Names.{name_wire};

use dns_name::{KeyName, Label, NameError, NameOctets};

/// The name of a label, which isn't the root's, below another name, unless that has more than 255 octets (RFC 1035, 2.3.4).
pub fn child_name(label: &Label<'_>, name: &KeyName) -> Result<KeyName, NameError>
    requires { (length label.now == 0) ≡ false }
    ensures is { IfOk result (λ n. n ≡ label.now ∷ name.now) }
    ensures short { OnOk result (length (name_wire (label.now ∷ name.now)) ≤ 255) }
    ensures long { OnErr result (256 ≤ length (name_wire (label.now ∷ name.now))) }
{
    joined(label.as_slice(), name)
}

/// The same with the label's octets.
fn joined(label: &[u8], name: &KeyName) -> Result<KeyName, NameError>
    requires some { (length label.now == 0) ≡ false }
    requires bound { length label.now ≤ 63 }
    ensures is { IfOk result (λ n. n ≡ label.now ∷ name.now) }
    ensures short { OnOk result (length (name_wire (label.now ∷ name.now)) ≤ 255) }
    ensures long { OnErr result (256 ≤ length (name_wire (label.now ∷ name.now))) }
{
    let mut octets = NameOctets::new();
    octets.append_label(label)?;
    octets.append(name.as_slice())?;
    Ok(KeyName::from_wire(octets))
}
