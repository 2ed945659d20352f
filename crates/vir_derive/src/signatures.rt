// Signatures of terms, and those of compositions from those of the parts.
ghost use Rattle.std.specs.Prelude.{◌≡◌, ◌↔◌, ℕ, List, IfOk, IsTrue};
ghost use Rattle.vir_term.specs.Tree.{Tree, tree, leaf, rev, seq, par, loop, exactly};
ghost use Rattle.vir_term.specs.declared.prop.Prop.{Prop};
ghost use Rattle.vir_rules.specs.Forms.{form_seen};
ghost use Rattle.vir_derive.specs.Heads.{head};
ghost use Rattle.vir_derive.specs.Numbers.{is_within, is_listed, AreEnough};
ghost use Rattle.vir_derive.specs.DerivableProps.{has};
ghost use Rattle.vir_derive.specs.KeptHeads.{head_seen};
ghost use Rattle.vir_derive.specs.Signatures.{has_prop, IsSignatureOf, JoinsParts};

use crate::derivable_props::DerivableProps;
use crate::kept_head::{Head, copy_of, head_of, oppose};
use crate::props_tree::PropsTree;
use crate::term_signature::Signature;
use std::alloc::{AllocError, Global};
use vir_rules::{Form, Prop};
use vir_term::{Leaf, Term};

// The number, where it is one of these.
fn number_among(number: Option<u32>, numbers: &[u32]) -> Option<u32>
    ensures { (k : ℕ) → (result ≡ Some k) ↔ ((number ≡ Some k) × IsTrue (is_listed numbers.now k)) }
{
    let k = number?;
    if numbers.contains(&k) { Some(k) } else { None }
}

// Those of the properties that have no number or one of these.
fn restrict(props: DerivableProps, numbers: &[u32]) -> DerivableProps
    requires { AreEnough (is_listed numbers.now) }
    ensures { (q : Prop) → IsTrue (has result q)
        ↔ (IsTrue (is_within (is_listed numbers.now) q) × IsTrue (has props q)) }
{
    DerivableProps {
        ne: props.ne,
        ea: props.ea,
        el: props.el,
        defers_one: props.defers_one,
        defers_other: number_among(props.defers_other, numbers),
        rejects: number_among(props.rejects, numbers),
        elim_one: props.elim_one,
        nb: props.nb,
        decr: props.decr,
        dli: props.dli,
        imono: props.imono,
        dimono: props.dimono,
        dmono: props.dmono,
        mono: props.mono,
        cc: props.cc,
        dcc: props.dcc,
        cprog: props.cprog,
        ccomp: props.ccomp,
        neut: props.neut,
    }
}

// The head of a term.
fn head_of_term(alloc: Global, term: &Term) -> Result<Option<Head>, AllocError>
    ensures { IfOk result (λ found. head_seen found ≡ head (tree term.now)) }
{
    match term {
        Term::Leaf(leaf) => head_of(alloc, leaf),
        Term::Rev(part) | Term::Seq(part, _) => head_of_term(alloc, part),
        Term::Par(_, _) | Term::Loop { .. } | Term::Until { .. } => Ok(None),
    }
}

impl Signature {
    /// Whether the property is in the signature.
    pub fn has(&self, prop: Prop) -> bool
        ensures { result ≡ has_prop self.now prop }
    {
        self.props.has(prop)
    }

    /// A signature of the same terms.
    pub fn copy(&self, alloc: Global) -> Result<Signature, AllocError>
        ensures { IfOk result (λ s. (numbers : List ℕ) → (t : Tree)
            → IsSignatureOf numbers self.now t → IsSignatureOf numbers s t) }
    {
        let props = self.props;
        let head = copy_of(alloc, &self.head)?;
        let numbers = Vec::from_slice(alloc, &self.numbers)?;
        Ok(Signature {
            numbers,
            props,
            head,
        })
    }

    // The signature of a term of this form with this head, from those of its parts.
    fn join(
        alloc: Global,
        form: Form,
        first: &Signature,
        second: &Signature,
        opposed: bool,
        head: Option<Head>,
    ) -> Result<Signature, AllocError>
        ensures { IfOk result (λ s.
            JoinsParts (form_seen form.entry) first.now second.now opposed (head_seen head) s) }
    {
        let whole = DerivableProps::of_parts(form, first.props, second.props, opposed);
        let props = restrict(whole, &first.numbers);
        let numbers = Vec::from_slice(alloc, &first.numbers)?;
        Ok(Signature {
            numbers,
            props,
            head,
        })
    }
}

/// The signature of a term for these numbers.
pub fn signature(alloc: Global, term: &Term, numbers: &[u32]) -> Result<Signature, AllocError>
    requires { AreEnough (is_listed numbers.now) }
    ensures { IfOk result (λ s. IsSignatureOf numbers.now s (tree term.now)) }
{
    let tree = PropsTree::of(alloc, term)?;
    let props = restrict(*tree.own(), numbers);
    let head = head_of_term(alloc, term)?;
    let numbers = Vec::from_slice(alloc, numbers)?;
    Ok(Signature {
        numbers,
        props,
        head,
    })
}

/// The signature of the revision of each term that has this one.
pub fn rev_signature(alloc: Global, m: &Signature) -> Result<Signature, AllocError>
    ensures { IfOk result (λ s. (numbers : List ℕ) → (t : Tree)
        → IsSignatureOf numbers m.now t → IsSignatureOf numbers s (rev t)) }
{
    let head = copy_of(alloc, &m.head)?;
    Signature::join(alloc, Form::Rev, m, m, false, head)
}

/// The signature of the loop over each term that has this one, where the loop ends at one alternative.
pub fn loop_one_signature(alloc: Global, m: &Signature) -> Result<Signature, AllocError>
    ensures { IfOk result (λ s. (numbers : List ℕ) → (t : Tree)
        → IsSignatureOf numbers m.now t → IsSignatureOf numbers s (loop (exactly 1) t)) }
{
    Signature::join(alloc, Form::Loop(1), m, m, false, None)
}

/// The signature of the sequential composition of two terms that have these ones, for the same numbers.
pub fn seq_signature(alloc: Global, m: &Signature, n: &Signature) -> Result<Signature, AllocError>
    ensures { IfOk result (λ s. (numbers : List ℕ) → (t u : Tree)
        → IsSignatureOf numbers m.now t → IsSignatureOf numbers n.now u → IsSignatureOf numbers s (seq t u)) }
{
    let head = copy_of(alloc, &m.head)?;
    let opposed = oppose(&m.head, &n.head);
    Signature::join(alloc, Form::Seq, m, n, opposed, head)
}

/// The signature of the parallel composition of two terms that have these ones, for the same numbers.
pub fn par_signature(alloc: Global, m: &Signature, n: &Signature) -> Result<Signature, AllocError>
    ensures { IfOk result (λ s. (numbers : List ℕ) → (t u : Tree)
        → IsSignatureOf numbers m.now t → IsSignatureOf numbers n.now u → IsSignatureOf numbers s (par t u)) }
{
    let opposed = oppose(&m.head, &n.head);
    Signature::join(alloc, Form::Par, m, n, opposed, None)
}
