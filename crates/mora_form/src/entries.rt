//! Which entries may be learnt.

ghost use Rattle.std.specs.Prelude.{◌↔◌, IsTrue};
ghost use Rattle.mora_form.specs.State.{AreMonicTerms};

use entry_code::Terms;

/// Whether these are the terms of a monic polynomial modulo `prime`: there is one, the ranks rise and are below `places`, the
/// coefficients are residues other than 0, and the first is 1.
pub(crate) fn are_monic(terms: &Terms, prime: u32, places: u32) -> bool
    ensures { IsTrue result ↔ AreMonicTerms prime places terms.now.list }
{
    if terms.len() == 0 || terms.get(0).coef != 1 {
        return false;
    }
    let mut low = 0;
    for i in 0..terms.len() {
        let term = terms.get(i);
        if term.rank < low || term.rank >= places || term.coef == 0 || term.coef >= prime {
            return false;
        }
        low = term.rank + 1;
    }
    true
}
