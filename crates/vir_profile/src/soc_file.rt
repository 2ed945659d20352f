// A profile with names of its alternatives.
ghost use Rattle.std.specs.Prelude.{◌≡◌};
ghost use Rattle.std.specs.Option.{option_copied};
ghost use Rattle.vir_profile.specs.SocFiles.{AreNames, name_of};

use crate::profile::Profile;
use std::marker::Model;

/// The text of a name: bytes in whatever encoding the file has.
#[derive(Debug, Drop)]
pub struct NameText {
    bytes: Vec<u8>,
}

impl Model for NameText {
    ghost use Rattle.std.specs.Prelude.{List, ℕ};

    ghost Value = { List ℕ };

    ghost view = { λ a. a.bytes.items };
}

impl NameText {
    /// The text of these bytes.
    pub fn of(bytes: Vec<u8>) -> NameText
        ensures { result ≡ bytes.items }
    {
        NameText { bytes }
    }

    /// The bytes of the text.
    pub fn bytes(&self) -> &[u8]
        ensures { result.now ≡ self.now }
    {
        self.bytes.as_slice()
    }
}

/// The name of the alternative of this number.
#[derive(Debug, Drop)]
pub struct Name {
    pub number: u16,
    pub text: NameText,
}

/// What a file of strict complete orders says: a profile, and names of some of its alternatives. The
/// names stand by ascending number, and a text is not empty, has no line feed and no blank (a space, a
/// tab or a carriage return) at its ends, so that it can be written on a line of its own.
#[derive(Debug, Drop)]
pub struct SocFile {
    profile: Profile,
    names: Vec<Name>,
}

impl Model for SocFile {
    ghost use Rattle.vir_profile.specs.SocFiles.{AreNames, File};

    ghost Value = { File };

    ghost view = { λ a. record { profile = a.profile; names = a.names.items } };

    ghost invariant = { λ a. AreNames a.profile.alternatives a.names.items };
}

impl SocFile {
    /// This profile with these names. Takes no memory.
    pub fn of(profile: Profile, names: Vec<Name>) -> SocFile
        requires { AreNames profile.alternatives names.items }
        ensures { result ≡ record { profile = profile; names = names.items } }
    {
        SocFile { profile, names }
    }

    /// The profile.
    pub fn profile(&self) -> &Profile
        ensures { result.now ≡ self.now.profile }
    {
        &self.profile
    }

    /// The name of alternative x, if the file gives one.
    pub fn name(&self, x: u16) -> Option<&[u8]>
        ensures { option_copied result ≡ name_of x self.now.names }
    {
        let name = self.names.iter().find(|name| name.number == x)?;
        Some(name.text.bytes())
    }

    /// The names that the file gives, by ascending number.
    pub fn names(&self) -> &[Name]
        ensures names { result.now ≡ self.now.names }
        ensures known { AreNames self.now.profile.alternatives self.now.names }
    {
        self.names.as_slice()
    }
}
