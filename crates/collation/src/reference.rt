//! References.
ghost use Rattle.std.specs.Prelude.{◌≡◌, MatchResult, None, Some, true};
ghost use Rattle.collation.specs.Name.{is_name};
ghost use Rattle.std.specs.Cmp.Lexicographic.{slice_cmp};
ghost use Rattle.collation.specs.Order.{subscript_cmp, ref_cmp};
ghost use Rattle.collation.specs.Faults.{reference_fault, subscripts_fault};

use crate::{LONGEST_SUBSCRIPT, MOST_SUBSCRIPTS, Name, Text, cmp_subscript};
use refusal::Refusal;
use smallvec::SmallVec;
use std::alloc::AllocError;
use std::cmp::Ordering;
use std::hash::{Hash, Hasher};
use std::marker::Model;

/// A list of subscripts. One lies in the value itself.
pub type Subscripts = SmallVec<Text, 1>;

/// A global reference: a name, and at most 31 subscripts of 1 to 255 bytes.
#[derive(Debug, Drop)]
pub struct Ref {
    name: Name,
    subscripts: Subscripts,
}

impl Model for Ref {
    ghost use Rattle.std.specs.Prelude.{◌≡◌, None};
    ghost use Rattle.collation.specs.Reference.{Reference};
    ghost use Rattle.collation.specs.Faults.{reference_fault};

    ghost Value = { Reference };

    ghost view = { λ r. record { name = r.name; subscripts = r.subscripts.items } };

    ghost invariant = { λ r. reference_fault r.subscripts.items ≡ None };
}

fn find_fault(subscripts: &[Text]) -> Option<Refusal>
    ensures { result ≡ reference_fault subscripts.now }
{
    if subscripts.len() > MOST_SUBSCRIPTS {
        return Some(Refusal::TooManySubscripts);
    }
    for subscript in subscripts {
        let len = subscript.as_slice().len();
        if len == 0 {
            return Some(Refusal::EmptySubscript);
        }
        if len > LONGEST_SUBSCRIPT {
            return Some(Refusal::SubscriptTooLong);
        }
    }
    None
}

impl Ref {
    /// The reference of this name and these subscripts.
    ///
    /// Refusals, in this order: `TooManySubscripts` over 31; then the first subscript that is at fault,
    /// `EmptySubscript`, or `SubscriptTooLong` over 255 bytes.
    pub fn new(name: Name, subscripts: Subscripts) -> Result<Ref, Refusal>
        ensures { MatchResult result (λ r. (reference_fault subscripts.items ≡ None) × (r.name ≡ name) × (r.subscripts ≡ subscripts.items))
            (λ refusal. reference_fault subscripts.items ≡ Some refusal) }
    {
        match find_fault(&subscripts) {
            Some(refusal) => Err(refusal),
            None => Ok(Ref { name, subscripts }),
        }
    }

    /// The name's bytes.
    pub fn name(&self) -> &[u8]
        ensures value { result.now ≡ self.now.name }
        ensures form { is_name self.now.name ≡ true }
    {
        self.name.as_slice()
    }

    /// The subscripts, none of them empty.
    pub fn subscripts(&self) -> &[Text]
        ensures value { result.now ≡ self.now.subscripts }
        ensures form { reference_fault self.now.subscripts ≡ None }
    {
        self.subscripts.as_slice()
    }
}

fn cmp_subscripts(a: &[Text], b: &[Text]) -> Ordering
    requires a_form { subscripts_fault a.now ≡ None }
    requires b_form { subscripts_fault b.now ≡ None }
    ensures { result ≡ slice_cmp subscript_cmp a.now b.now }
{
    match a {
        [] => {
            if b.is_empty() {
                Ordering::Equal
            } else {
                Ordering::Less
            }
        }
        [x, xs @ ..] => match b {
            [] => Ordering::Greater,
            [y, ys @ ..] => {
                let first = cmp_subscript(x.as_slice(), y.as_slice());
                match first {
                    Ordering::Equal => cmp_subscripts(xs, ys),
                    _ => first,
                }
            }
        },
    }
}

/// Compares two references: by name, then subscript by subscript, a beginning first.
pub fn cmp_ref(a: &Ref, b: &Ref) -> Ordering
    ensures { result ≡ ref_cmp a.now b.now }
{
    a.cmp(b)
}

impl PartialEq for Ref {
    ghost use Rattle.collation.specs.Order.{ref_eq};
    ghost use Rattle.collation.specs.laws.Order.{ref_eq_laws};
    ghost use Rattle.std.specs.Cmp.{partial_equiv_from_equiv};

    ghost eq = { ref_eq };

    ghost laws = { partial_equiv_from_equiv ref_eq_laws };

    fn eq(&self, other: &Ref) -> bool {
        self.name() == other.name() && self.subscripts == other.subscripts
    }
}

impl Eq for Ref {
    ghost use Rattle.collation.specs.laws.Order.{ref_eq_laws};

    ghost laws = { ref_eq_laws };
}

impl Ord for Ref {
    ghost use Rattle.std.specs.Prelude.{refl};
    ghost use Rattle.collation.specs.Order.{ref_cmp};
    ghost use Rattle.collation.specs.laws.Order.{ref_cmp_total, ref_ties};

    ghost cmp = { ref_cmp };

    ghost total = { ref_cmp_total };

    ghost matches_partial_cmp = { λ _ _. refl };

    ghost matches_eq = { ref_ties };

    #[tactic(auto, unfolding(crate::specs::Order::ref_cmp))]
    fn cmp(&self, other: &Ref) -> Ordering {
        let names = self.name().cmp(&other.name());
        names.then_with(|| cmp_subscripts(self.subscripts(), other.subscripts()))
    }
}

impl PartialOrd for Ref {
    ghost use Rattle.std.specs.Prelude.{refl};
    ghost use Rattle.std.specs.Ordering.{as_partial_cmp};
    ghost use Rattle.std.specs.Cmp.{partial_order_from_agreeing_total};
    ghost use Rattle.collation.specs.Order.{ref_cmp};
    ghost use Rattle.collation.specs.laws.Order.{ref_cmp_total, ref_ties};

    ghost partial_cmp = { as_partial_cmp ref_cmp };

    ghost laws = { partial_order_from_agreeing_total ref_cmp ref_cmp_total (λ _ _. refl) ref_ties };

    fn partial_cmp(&self, other: &Ref) -> Option<Ordering> {
        Some(self.cmp(other))
    }
}

impl Hash for Ref {
    ghost use Rattle.std.specs.Prelude.{◌++◌};
    ghost use Rattle.std.specs.Hash as fed;
    ghost use Rattle.collation.specs.laws.Order.{ref_eq_decides};
    ghost use Rattle.std.specs.Hash.{same_Alike};

    ghost hash_input = { λ r. fed.slice fed.u8 r.name ++ fed.slice (fed.slice fed.u8) r.subscripts };

    ghost respects_eq = { (same_Alike (λ r. fed.slice fed.u8 r.name ++ fed.slice (fed.slice fed.u8) r.subscripts) ref_eq_decides).fed };

    fn hash<H: Hasher>(&self, state: &mut H) {
        self.name().hash(state);
        self.subscripts.hash(state);
    }
}

impl Clone for Ref {
    ghost use Rattle.std.specs.Prelude.{◌≡◌};

    ghost is_clone = { λ a b. a ≡ b };

    fn clone(&self) -> Result<Ref, AllocError> {
        let name = self.name.clone()?;
        let subscripts = self.subscripts.clone()?;
        Ok(Ref { name, subscripts })
    }
}
