// What is derivable of a term, from what is of its parts.
ghost use Rattle.std.specs.Prelude.{◌≡◌, ℕ, Bool};
ghost use Rattle.vir_term.specs.Tree.{Tree};
ghost use Rattle.vir_term.specs.Tree as tree;
ghost use Rattle.vir_rules.specs.Forms.{form_seen};
ghost use Rattle.vir_derive.specs.Numbers.{AreEnough};
ghost use Rattle.vir_derive.specs.DerivableProps.{has, IsSeen, IsSeenWithin, Tells, TellsWithin};

use crate::derivable_props::DerivableProps;
use crate::sight::Sight;
use vir_rules::{Form, Prop};
use vir_term::Leaf;

impl DerivableProps {
    // Of a term of which nothing is derivable.
    const EMPTY: DerivableProps = DerivableProps {
        ne: false,
        ea: false,
        el: false,
        defers_one: false,
        defers_other: None,
        rejects: None,
        elim_one: false,
        nb: false,
        decr: false,
        dli: false,
        imono: false,
        dimono: false,
        dmono: false,
        mono: false,
        cc: false,
        dcc: false,
        cprog: false,
        ccomp: false,
        neut: false,
    };

    /// What is derivable of a module.
    pub fn of_leaf(leaf: &Leaf) -> DerivableProps
        ensures { Tells result (tree.leaf leaf.now) }
    {
        DerivableProps::of_parts(
            Form::Leaf(leaf),
            DerivableProps::EMPTY,
            DerivableProps::EMPTY,
            false,
        )
    }

    /// What is derivable of a term of this form, from what is of its first and its second part and from whether
    /// the heads of these are opposed. Where there is one part, it counts as the first and as the second
    /// one, and its head isn't opposed to itself; of a module only the form counts.
    pub fn of_parts(
        form: Form,
        first: DerivableProps,
        second: DerivableProps,
        opposed: bool,
    ) -> DerivableProps
        ensures all { (term : Tree) → IsSeen (form_seen form.entry) first second opposed term → Tells result term }
        ensures within { (numbers : ℕ → Bool) → AreEnough numbers → (term : Tree) → IsSeenWithin numbers
            (form_seen form.entry) first second opposed term → TellsWithin numbers result term }
    {
        let sight = Sight {
            form,
            first,
            second,
            opposed,
        };
        DerivableProps {
            ne: sight.derives(Prop::Ne),
            ea: sight.derives(Prop::Ea),
            el: sight.derives(Prop::El),
            defers_one: sight.derives(Prop::Defers(1)),
            defers_other: sight.defers_other(),
            rejects: sight.rejects(),
            elim_one: sight.derives(Prop::Elim(1)),
            nb: sight.derives(Prop::Nb),
            decr: sight.derives(Prop::Decr),
            dli: sight.derives(Prop::Dli),
            imono: sight.derives(Prop::Imono),
            dimono: sight.derives(Prop::Dimono),
            dmono: sight.derives(Prop::Dmono),
            mono: sight.derives(Prop::Mono),
            cc: sight.derives(Prop::Cc),
            dcc: sight.derives(Prop::Dcc),
            cprog: sight.derives(Prop::Cprog),
            ccomp: sight.derives(Prop::Ccomp),
            neut: sight.derives(Prop::Neut),
        }
    }

    /// Whether the property is derivable.
    pub fn has(&self, prop: Prop) -> bool
        ensures { result ≡ has self.now prop }
    {
        match prop {
            Prop::Ne => self.ne,
            Prop::Ea => self.ea,
            Prop::El => self.el,
            Prop::Defers(1) => self.defers_one,
            Prop::Defers(k) => self.defers_other == Some(k),
            Prop::Rejects(k) => self.rejects == Some(k),
            Prop::Elim(k) => k == 1 && self.elim_one,
            Prop::Nb => self.nb,
            Prop::Decr => self.decr,
            Prop::Dli => self.dli,
            Prop::Imono => self.imono,
            Prop::Dimono => self.dimono,
            Prop::Dmono => self.dmono,
            Prop::Mono => self.mono,
            Prop::Cc => self.cc,
            Prop::Dcc => self.dcc,
            Prop::Cprog => self.cprog,
            Prop::Ccomp => self.ccomp,
            Prop::Neut => self.neut,
        }
    }
}
