// The versions of certificates, and what each has.
ghost use Rattle.std.specs.Prelude.{◌≡◌};
ghost use Rattle.vir_cert.specs.Versions.{is_new_name, is_new_prop, knows, last_rule, version_text};

use vir_rules::{Prop, PropName, RuleId};

// How many rules the first version has.
const LAST_OF_ONE: usize = 82;

// Whether a property is new in version 2.
pub(crate) fn is_new_prop(prop: Prop) -> bool
    ensures { result ≡ is_new_prop prop }
{
    match prop {
        Prop::Neut => true,
        _ => false,
    }
}

// Whether the property of a name is.
fn is_new_name(name: PropName) -> bool
    ensures { result ≡ is_new_name name }
{
    match name {
        PropName::Alone(prop) => is_new_prop(prop),
        PropName::WithNumber(_) => false,
    }
}

// The version of a certificate.
#[derive(Clone, Copy, Debug, PartialEq, Eq)]
pub(crate) enum Version {
    One,
    Two,
}

impl Version {
    // How many rules it has, the first of the table.
    pub(crate) fn last_rule(self) -> usize
        ensures { result ≡ last_rule self }
    {
        match self {
            Version::One => LAST_OF_ONE,
            Version::Two => RuleId::COUNT,
        }
    }

    // Whether it has a property.
    pub(crate) fn knows(self, name: PropName) -> bool
        ensures { result ≡ knows self name }
    {
        match self {
            Version::One => !is_new_name(name),
            Version::Two => true,
        }
    }

    // As a certificate names it.
    pub(crate) fn name(self) -> &'static str
        ensures { result.now ≡ version_text self }
    {
        match self {
            Version::One => "1",
            Version::Two => "2",
        }
    }
}
