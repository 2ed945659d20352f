// The names that metadata gives so far.
ghost use Rattle.std.specs.Prelude.{◌≡◌, ◌≤◌, [], IfOk, OnOk};
ghost use Rattle.vir_profile.specs.SocFiles.{AreNames};
ghost use Rattle.vir_soc.specs.Names.{is_name, names_up_to, with_name};
ghost use Rattle.vir_soc.specs.Reader.Given.{MayBeName};

use std::alloc::{AllocError, AllocFailed, Global};
use std::collections::BTreeMap;
use std::marker::Model;
use vir_profile::{Name, NameText};

/// What metadata has given as names so far: at each number the last text, which may be empty.
#[derive(Drop)]
pub struct Names {
    given: BTreeMap<u16, NameText, Global>,
}

impl Model for Names {
    ghost use Rattle.std.specs.Prelude.{List, ℕ};
    ghost use Rattle.vir_soc.specs.Reader.Given.{AreGiven, MayBeName};

    ghost Value = { List (ℕ × List ℕ) };

    ghost view = { λ a. a.given.entries };

    ghost invariant = { λ a. AreGiven MayBeName 1 a.given.entries };
}

/// Whether a text that is given to this number is the name of one of m alternatives.
fn is_name(m: u16, number: u16, text: &NameText) -> bool
    ensures { result ≡ is_name m (number, text.now) }
{
    number <= m && !text.bytes().is_empty()
}

impl Names {
    /// No names.
    pub fn new(alloc: Global) -> Names
        ensures { result ≡ [] }
    {
        Names {
            given: BTreeMap::new(alloc),
        }
    }

    /// Gives this alternative this text in place of another.
    pub fn put(&mut self, number: u16, text: NameText) -> Result<(), AllocFailed<(u16, NameText)>>
        requires alternative { 1 ≤ number }
        requires text { MayBeName text }
        ensures { OnOk result (self.new ≡ with_name number text self.old) }
    {
        self.given.insert(number, text)?;
        Ok(())
    }

    /// The names of the alternatives up to m.
    pub fn up_to(self, alloc: Global, m: u16) -> Result<Vec<Name>, AllocError>
        ensures names { IfOk result (λ list. list.items ≡ names_up_to m self) }
        ensures known { IfOk result (λ list. AreNames m list.items) }
    {
        let Names { given } = self;
        let mut list = Vec::new(alloc);
        for (number, text) in given {
            if is_name(m, number, &text) {
                list.push(Name { number, text })?;
            }
        }
        Ok(list)
    }
}
