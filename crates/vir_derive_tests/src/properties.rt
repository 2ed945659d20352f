// Properties by their texts, and the texts that are those of none.
use vir_rules::{Counted, Prop, PropName, read_prop};

const TEXTS: &[(&str, Prop)] = &[
    ("ne", Prop::Ne),
    ("ea", Prop::Ea),
    ("el", Prop::El),
    ("defers(1)", Prop::Defers(1)),
    ("defers(1000000)", Prop::Defers(1_000_000)),
    ("rejects(20)", Prop::Rejects(20)),
    ("elim(3)", Prop::Elim(3)),
    ("nb", Prop::Nb),
    ("decr", Prop::Decr),
    ("dli", Prop::Dli),
    ("imono", Prop::Imono),
    ("dimono", Prop::Dimono),
    ("dmono", Prop::Dmono),
    ("mono", Prop::Mono),
    ("cc", Prop::Cc),
    ("dcc", Prop::Dcc),
    ("cprog", Prop::Cprog),
    ("ccomp", Prop::Ccomp),
    ("neut", Prop::Neut),
];

// A number is written without leading zeros, and is from 1 to 1,000,000; no blank stands anywhere.
const OTHER_TEXTS: &[&str] = &[
    "",
    " ",
    " mono",
    "mono ",
    "Mono",
    "mono(1)",
    "defers",
    "defers()",
    "defers(01)",
    "defers(0)",
    "defers(1000001)",
    "defers(4294967297)",
    "defers(1",
    "defers(1))",
    "defers(+1)",
    "defers (1)",
    "elim(1),",
    "disj",
];

#[test]
fn texts_of_properties_are_read(rt: HostRuntime) {
    for (text, prop) in TEXTS {
        assert!(rt; read_prop(text.as_bytes()) == Some(*prop), "{text}");
    }
    for text in OTHER_TEXTS {
        assert!(rt; read_prop(text.as_bytes()).is_none(), "{text}");
    }
}

#[test]
fn words_name_properties(rt: HostRuntime) {
    assert!(rt; PropName::named(b"dmono") == Some(PropName::Alone(Prop::Dmono)));
    assert!(rt; PropName::named(b"elim") == Some(PropName::WithNumber(Counted::Elim)));
    assert!(rt; PropName::named(b"elim(1)").is_none());
    assert!(rt; PropName::WithNumber(Counted::Rejects).text() == "rejects");
}
