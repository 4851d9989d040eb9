//! Prices of forms, and the choice of the first form of least price.

ghost use Rattle.std.specs.Prelude.{◌≡◌, ℕ, ◌<◌, ◌≤◌, length, get_or, true};
ghost use Rattle.price_choice.specs.declared.forms.FormKind.{FormKind};
ghost use Rattle.price_choice.specs.declared.forms.Form.TheVariants.{TablePair};
ghost use Rattle.price_choice.specs.Forms.{gives_of, IsForm};
ghost use Rattle.price_choice.specs.List.{forms};
ghost use Rattle.price_choice.specs.Choice.{ArePrices, IsFirstLeast, price_by, stated_price, AllForms};

use crate::forms::{Form, FormKind, Pick};
use crate::list::{FORMS, form_at};

/// The prices of kinds, from 1 to 1000, as a closure states them: it is asked once for each kind.
#[derive(Drop)]
pub struct Chooser<P> {
    prices: P,
    stated: [u32; 7],
    ghost within: { ArePrices stated },
}

impl<P: Fn(FormKind) -> u32> Chooser<P> {
    /// The chooser by these prices. Every call of `prices` for a kind answers one number from 1 to 1000.
    pub fn new(prices: P) -> Chooser<P>
        requires callable { (k : FormKind) → P.pre prices k }
        requires steady { (k : FormKind) → (n : ℕ) × (1 ≤ n) × (n ≤ 1000) × ((r : ℕ) → P.post prices k r → r ≡ n) }
        ensures { (k : FormKind) (r : ℕ) → P.post prices k r → stated_price result.stated k ≡ r }
    {
        let stated = [
            prices(FormKind::Dup),
            prices(FormKind::Ext),
            prices(FormKind::Rev),
            prices(FormKind::Zip),
            prices(FormKind::Uzp),
            prices(FormKind::Trn),
            prices(FormKind::Tbl),
        ];
        Chooser { prices, stated }
    }

    /// The price of a form: that of its kind, and 0 for an operand alone.
    pub fn price(&self, form: &Form) -> u32
        ensures { result ≡ price_by self.now.stated form.now }
    {
        match form.kind() {
            None => 0,
            Some(FormKind::Dup) => self.stated[0],
            Some(FormKind::Ext) => self.stated[1],
            Some(FormKind::Rev) => self.stated[2],
            Some(FormKind::Zip) => self.stated[3],
            Some(FormKind::Uzp) => self.stated[4],
            Some(FormKind::Trn) => self.stated[5],
            Some(FormKind::Tbl) => self.stated[6],
        }
    }

    /// The place of the first form of least price that gives these bytes. Some form does.
    pub fn pick(&self, forms: &[Form], want: &[Pick; 16]) -> usize
        requires listed { AllForms forms.now }
        requires some { (i : ℕ) × (i < length forms.now) × (gives_of (get_or forms.now i TablePair) want.now ≡ true) }
        ensures { IsFirstLeast (λ f. gives_of f want.now) (price_by self.now.stated) forms.now TablePair result }
    {
        let mut best = 0;
        let mut least = 1001u32;
        for (i, form) in forms.iter().enumerate() {
            if form.gives(want) {
                let price = self.price(form);
                if price < least {
                    best = i;
                    least = price;
                }
            }
        }
        best
    }

    /// The first form of least price in the list of all forms that gives these bytes: 3 operands and 387 calls, of which the last gives whatever is asked.
    pub fn cheapest(&self, want: &[Pick; 16]) -> Form
        ensures { (i : ℕ) × IsFirstLeast (λ f. gives_of f want.now) (price_by self.now.stated) forms TablePair i × (result ≡ get_or forms i TablePair) }
    {
        let mut best = 0;
        let mut least = 1001u32;
        for i in 0..FORMS {
            let form = form_at(i);
            if !form.gives(want) {
                continue;
            }
            let price = self.price(&form);
            if least <= price {
                continue;
            }
            best = i;
            least = price;
        }
        form_at(best)
    }
}
