//! Texts of a fixed form. Contracts see a name's bytes.
ghost use Rattle.std.specs.Cmp.Lexicographic.{pointwise, slice_cmp, nat_list_eq_equiv, nat_list_cmp_total, texts_ties, texts_po};
ghost use Rattle.std.specs.Ordering.{nat_cmp};
ghost use Rattle.std.specs.Prelude.{◌≡◌, ◌==◌, ℕ, List, Bool, Some, Err, true, false, IfOk, IsTrue, refl};
ghost use Rattle.std.specs.Rc.{rc_str_bytes};
ghost use Rattle.std.specs.Cmp as Cmp;

use crate::Key;
use crate::names::Bad;
use std::alloc::{AllocError, Global};
use std::cmp::Ordering;
use std::marker::{Model, PhantomData};
use std::rc::RcStr;

/// A form that a text has or has not.
pub trait Form {
    ghost is_form: { List ℕ → Bool };

    /// Whether a text is of the form.
    fn is_met(text: &str) -> bool
        ensures { result ≡ is_form text.now };
}

/// A name of a form. Contracts see its bytes; its copies share one text.
#[derive(Drop)]
pub struct Name<F: Form> {
    text: RcStr,
    form: PhantomData<F>,
}

impl<F: Form> Model for Name<F> {
    ghost use Rattle.std.specs.{Prelude.ℕ, Prelude.List, Prelude.IsTrue, Rc.rc_str_bytes};

    ghost Value = { List ℕ };

    ghost view = { λ n. rc_str_bytes n.text };

    ghost invariant = { λ n. IsTrue (F.is_form (rc_str_bytes n.text)) };
}

impl<F: Form> Name<F> {
    /// The name whose bytes a text has. Form exactly where the text isn't of the form; Memory
    /// where there was no memory for the copy that the name keeps.
    pub fn read(alloc: Global, text: &str) -> Result<Name<F>, Bad>
        ensures ok { IfOk result (λ n. (n ≡ text.now) × (F.is_form text.now ≡ true)) }
        ensures form { result ≡ Err Bad.Form → F.is_form text.now ≡ false }
    {
        if !F::is_met(text) {
            return Err(Bad::Form);
        }
        let copied = RcStr::from_str(alloc, text)?;
        Ok(Name {
            text: copied,
            form: PhantomData,
        })
    }

    /// The name that a constant text is, which is known to be of the form. An error where there was no memory for it.
    pub(crate) fn of_form(alloc: Global, text: &str) -> Result<Name<F>, AllocError>
        requires { IsTrue (F.is_form text.now) }
        ensures { IfOk result (λ n. n ≡ text.now) }
    {
        let text = RcStr::from_str(alloc, text)?;
        Ok(Name {
            text,
            form: PhantomData,
        })
    }

    /// The text.
    pub fn as_str(&self) -> &str
        ensures text { result.now ≡ self.now }
        ensures form { F.is_form self.now ≡ true }
    {
        self.text.as_str()
    }

    /// A copy of the name, which shares its text and takes no memory. An error where there are
    /// as many copies as can be counted.
    pub fn copy(&self) -> Result<Name<F>, AllocError>
        ensures { IfOk result (λ n. n ≡ self.now) }
    {
        let text = self.text.clone()?;
        Ok(Name {
            text,
            form: PhantomData,
        })
    }
}

impl<F: Form> PartialEq for Name<F> {
    ghost eq = { pointwise ◌==◌ };

    ghost laws = { Cmp.partial_equiv_from_equiv nat_list_eq_equiv };

    fn eq(&self, other: &Self) -> bool {
        self.as_str() == other.as_str()
    }
}

impl<F: Form> Eq for Name<F> {
    ghost laws = { nat_list_eq_equiv };
}

impl<F: Form> PartialOrd for Name<F> {
    ghost partial_cmp = { λ x y. Some (slice_cmp nat_cmp x y) };

    ghost laws = { texts_po };

    fn partial_cmp(&self, other: &Self) -> Option<Ordering> {
        Some(self.cmp(other))
    }
}

impl<F: Form> Ord for Name<F> {
    ghost cmp = { slice_cmp nat_cmp };

    ghost total = { nat_list_cmp_total };

    ghost matches_partial_cmp = { λ x y. refl };

    ghost matches_eq = { texts_ties };

    fn cmp(&self, other: &Self) -> Ordering {
        self.as_str().cmp(other.as_str())
    }
}

impl<F: Form + Drop> Key for Name<F> {
    fn copy(&self) -> Result<Name<F>, AllocError> {
        Name::copy(self)
    }
}
