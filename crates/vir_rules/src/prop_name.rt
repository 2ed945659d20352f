// The names of properties.
ghost use Rattle.std.specs.Prelude.{◌≡◌};
ghost use Rattle.vir_rules.specs.Named.{counted_prop, name_text, prop_named, prop_names};
ghost use Rattle.vir_rules.specs.Props.{prop_word};

use vir_term::Prop;

/// A property that has a number.
#[derive(Clone, Copy, Debug, PartialEq, Eq)]
pub enum Counted {
    /// Deferring just so many.
    Defers,
    /// Rejecting just so many.
    Rejects,
    /// Rejecting just so many where there are more.
    Elim,
}

/// What the name of a property stands for.
#[derive(Clone, Copy, Debug, PartialEq, Eq)]
pub enum PropName {
    /// This property.
    Alone(Prop),
    /// A property of the number that follows.
    WithNumber(Counted),
}

impl Counted {
    /// The property of this number.
    pub fn prop(self, k: u32) -> Prop
        ensures { result ≡ counted_prop self k }
    {
        match self {
            Counted::Defers => Prop::Defers(k),
            Counted::Rejects => Prop::Rejects(k),
            Counted::Elim => Prop::Elim(k),
        }
    }
}

/// The name of a property, without its number. It is what is printed, and what is read.
pub fn prop_word(prop: Prop) -> &'static str
    ensures { result.now ≡ prop_word prop }
{
    match prop {
        Prop::Ne => "ne",
        Prop::Ea => "ea",
        Prop::El => "el",
        Prop::Defers(_) => "defers",
        Prop::Rejects(_) => "rejects",
        Prop::Elim(_) => "elim",
        Prop::Nb => "nb",
        Prop::Decr => "decr",
        Prop::Dli => "dli",
        Prop::Imono => "imono",
        Prop::Dimono => "dimono",
        Prop::Dmono => "dmono",
        Prop::Mono => "mono",
        Prop::Cc => "cc",
        Prop::Dcc => "dcc",
        Prop::Cprog => "cprog",
        Prop::Ccomp => "ccomp",
        Prop::Neut => "neut",
    }
}

static NAMES: [PropName; 18] = [
    PropName::Alone(Prop::Ne),
    PropName::Alone(Prop::Ea),
    PropName::Alone(Prop::El),
    PropName::WithNumber(Counted::Defers),
    PropName::WithNumber(Counted::Rejects),
    PropName::WithNumber(Counted::Elim),
    PropName::Alone(Prop::Nb),
    PropName::Alone(Prop::Decr),
    PropName::Alone(Prop::Dli),
    PropName::Alone(Prop::Imono),
    PropName::Alone(Prop::Dimono),
    PropName::Alone(Prop::Dmono),
    PropName::Alone(Prop::Mono),
    PropName::Alone(Prop::Cc),
    PropName::Alone(Prop::Dcc),
    PropName::Alone(Prop::Cprog),
    PropName::Alone(Prop::Ccomp),
    PropName::Alone(Prop::Neut),
];

// The names of all properties, in the order of properties.
fn names() -> &'static [PropName; 18]
    ensures { result.now ≡ prop_names }
{
    &NAMES
}

impl PropName {
    /// The name itself.
    pub fn text(self) -> &'static str
        ensures { result.now ≡ name_text self }
    {
        match self {
            PropName::Alone(prop) => prop_word(prop),
            PropName::WithNumber(name) => prop_word(name.prop(1)),
        }
    }

    /// What a word names; none where it names no property.
    pub fn named(text: &[u8]) -> Option<PropName>
        ensures { result ≡ prop_named text.now }
    {
        for name in names() {
            if text == name.text().as_bytes() {
                return Some(*name);
            }
        }
        None
    }
}
