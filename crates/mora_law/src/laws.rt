//! The laws of Mora's normal form modulo degree d + 1. Each is a call that does nothing, and whose contract is the law.

ghost use Rattle.std.specs.Prelude.{◌≡◌, ◌↔◌, ◌+◌, ◌<◌, ◌≤◌, ℕ, List, [], ◌∷◌, length, map, get_or, Contains, Some, None, take};
ghost use Rattle.local_order.specs.Mono.{degree, Divides};
ghost use Rattle.mono_rank.specs.Rank.{fewer};
ghost use Rattle.mono_rank.specs.Cover.{IsCorner, corner_of_leads};
ghost use Rattle.sparse_poly.specs.Poly.{Poly, IsIn, IsCanonical};
ghost use Rattle.sparse_poly.specs.Ideal.{Problem, IsProblem, IsInIdeal, IsLeadOfIdeal, Fits, IsReducedBasis, IsFirstMissing};
ghost use Rattle.std.specs.List.{range_with_len};
ghost use Rattle.sparse_poly.specs.Shape.{shape_of};
ghost use Rattle.entry_code.specs.declared.item.Item.{Item};
ghost use Rattle.entry_code.specs.declared.item.Item.TheVariants.{Generator, Pair};
ghost use Rattle.entry_code.specs.declared.reading.Reading.{Reading};
ghost use Rattle.entry_code.specs.Entry.{Entry, entry_at};
ghost use Rattle.rank_algebra.specs.Vector.{Vector, nothing, Agree};
ghost use Rattle.rank_algebra.specs.Ranks.{Ranks, IsRanks};
ghost use Rattle.rank_algebra.specs.Ideal.{InSpan, IsLeadOfSpan};
ghost use Rattle.mora_law.specs.Ring.{numbering_of, ranks_of_problem, IsAdmissible, vector_of, generators_of};
ghost use Rattle.mora_law.specs.Step.{Reducer, reducer, choose, IsFirstOfLeastEcart};
ghost use Rattle.mora_law.specs.Run.{AreOrderly, last_known, last_corner};
ghost use Rattle.mora_law.specs.Entries.{basis_of, lead_rank, AreMonic, corner, leads, terms_of, poly_of_terms, polys_of, AreByRank, monic};
ghost use Rattle.entry_code.specs.Terms.{vector_of_terms};
ghost use Rattle.mora_law.specs.declared.skip.Skip.TheVariants.{Product, Chain};
ghost use Rattle.mora_law.specs.declared.step_end.StepEnd.TheVariants.{Zero, Reduced, Stuck};
ghost use Rattle.mora_law.specs.Lead.{ecart};
ghost use Rattle.mora_law.specs.Start.{start, run};
ghost use Rattle.mora_law.specs.Legal.{IsItemOf, Legal};
ghost use Rattle.mora_law.specs.SPolynomial.{s_polynomial};
ghost use Rattle.mora_law.specs.Tickets.{HasTicket, ticket_of, total};
ghost use Rattle.mora_law.specs.Items.{item_of};
ghost use Rattle.mora_law.specs.Skip.{skip};
ghost use Rattle.mora_law.specs.Settled.{IsSettled, AllSettled};
ghost use Rattle.mora_law.specs.UnitLaw.{UnitLaw, UnitLawOfPolynomials};
ghost use Rattle.mora_law.specs.Basis.{remainder_by, basis};
ghost use Rattle.mora_law.specs.Examples.{term, reading, written, plane, bare, kept_problem, kept_entries, kept_basis, racing_problem, racing_entries, curve_problem, curve_entries, curve_leads, curve_basis, cubes_problem, cubes_first, cubes_entries, later_pair, unknown_entry, other_multiple, low_corner, high_corner, short_run, long_run, forgotten_entry, rising_problem, rising_corner, powers, chosen, step_on, divided};

/// A problem within the limits has what the laws ask for, and its ranks compute.
pub fn problems_have_ranks()
    ensures limits { (P : Problem) → IsProblem P → IsAdmissible P }
    ensures ranks { (P : Problem) → IsAdmissible P → IsRanks (ranks_of_problem P) }
{}

/// The ideal modulo degree d + 1 and its leads, by rank. Every vector is that of a polynomial in canonical form.
pub fn ideals_are_spans()
    ensures vectors { (P : Problem) (v : Vector) → IsAdmissible P
        → IsCanonical P.p P.n (poly_of_terms P (terms_of (ranks_of_problem P) v))
        × Agree (ranks_of_problem P) (numbering_of P).count (vector_of P (poly_of_terms P (terms_of (ranks_of_problem P) v))) v }
    ensures members { (P : Problem) (f : Poly) → IsAdmissible P
        → IsInIdeal P f ↔ InSpan (ranks_of_problem P) (generators_of P) (vector_of P f) }
    ensures leads { (P : Problem) (m : List ℕ) → IsAdmissible P → length m ≡ P.n → degree m ≤ P.d
        → IsLeadOfIdeal P m ↔ IsLeadOfSpan (ranks_of_problem P) (generators_of P) ((numbering_of P).rank m) }
{}

/// A step chooses the reducer of least ecart, and the first of these; it chooses none exactly where there is none.
pub fn choice_is_least()
    ensures some { (R : Ranks) (r : ℕ) (gs : List Vector) (c : Reducer) → choose R r gs ≡ Some c ↔ ((k : ℕ) × IsFirstOfLeastEcart R r gs k c) }
    ensures none { (R : Ranks) (r : ℕ) (gs : List Vector)
        → choose R r gs ≡ None ↔ ((k : ℕ) → k < length gs → reducer R r (get_or gs k nothing) ≡ None) }
{}

/// Tickets and the items that have one belong to each other one by one.
pub fn tickets_number_the_items()
    ensures item { (m ticket : ℕ) → HasTicket m (item_of m ticket) × (ticket_of m (item_of m ticket) ≡ ticket) }
    ensures ticket { (m : ℕ) (item : Item) → HasTicket m item → item_of m (ticket_of m item) ≡ item }
    ensures total { (m entries : ℕ) (item : Item) → HasTicket m item → (ticket_of m item < total m entries) ↔ IsItemOf m entries item }
{}

/// What runs start from: a generator, or the S-polynomial of two entries.
pub fn starts_are_polynomials()
    ensures generator { (P : Problem) (entries : List Entry) (g : ℕ) → IsAdmissible P
        → IsIn P.n (get_or P.gens g [])
        × Agree (ranks_of_problem P) (numbering_of P).count (vector_of P (get_or P.gens g [])) (start P entries (Generator g)) }
    ensures pair { (P : Problem) (entries : List Entry) (i j : ℕ) → IsAdmissible P → AreMonic P entries → AreByRank P entries
        → i < j → j < length entries
        → IsIn P.n (s_polynomial P entries i j)
        × Agree (ranks_of_problem P) (numbering_of P).count (vector_of P (s_polynomial P entries i j)) (start P entries (Pair i j)) }
{}

/// The unit law: up to a unit, a run begins with what it ends with and a combination of the entries it knew, by rank, and in the
/// words of polynomials. `starts_are_polynomials` tells which polynomials a run begins with, and `members` that legal entries are
/// monic and by rank.
pub fn unit_law()
    ensures by_rank { (P : Problem) (entries : List Entry) (item : Item) (reads : List Reading) → IsAdmissible P → AreMonic P entries
        → AreOrderly (length entries) 0 (numbering_of P).count reads
        → UnitLaw (ranks_of_problem P) (basis_of entries).member (last_known 0 reads) (start P entries item)
        (last_corner (numbering_of P).count reads) (run P entries item reads).poly }
    ensures polynomials { (P : Problem) (entries : List Entry) (item : Item) (reads : List Reading) (f h : Poly) → IsAdmissible P
        → AreMonic P entries → AreByRank P entries → AreOrderly (length entries) 0 (numbering_of P).count reads → IsIn P.n f
        → Agree (ranks_of_problem P) (numbering_of P).count (vector_of P f) (start P entries item)
        → Agree (ranks_of_problem P) (numbering_of P).count (vector_of P h) (run P entries item reads).poly
        → UnitLawOfPolynomials P (polys_of P (take (last_known 0 reads) entries)) f (last_corner (numbering_of P).count reads) h }
{}

/// Legal entries are monic, have their terms by rank, and lie in the ideal modulo degree d + 1, and so does each monomial from
/// their corner on.
pub fn members()
    ensures monic { (P : Problem) (entries : List Entry) → IsAdmissible P → Legal P entries → AreMonic P entries }
    ensures by_rank { (P : Problem) (entries : List Entry) → IsAdmissible P → Legal P entries → AreByRank P entries }
    ensures entries { (P : Problem) (entries : List Entry) (e : Entry) → IsAdmissible P → Legal P entries → Contains entries e
        → IsInIdeal P (poly_of_terms P e.terms) }
    ensures corner { (P : Problem) (entries : List Entry) (m : List ℕ) → IsAdmissible P → Legal P entries
        → length m ≡ P.n → degree m ≤ P.d → corner P entries ≤ (numbering_of P).rank m
        → IsInIdeal P (record { mono = m; coef = 1 } ∷ []) }
{}

/// Buchberger's criterion modulo degree d + 1: where every ticket is settled, the leads of the ideal are the multiples of the leads
/// of the entries.
pub fn criterion()
    ensures { (P : Problem) (entries : List Entry) (m : List ℕ) → IsAdmissible P → Legal P entries → AllSettled P entries
        → length m ≡ P.n → degree m ≤ P.d
        → IsLeadOfIdeal P m ↔ ((l : List ℕ) × Contains (leads P entries) l × Divides l m) }
{}

/// Where every ticket is settled, plain division by the entries leaves nothing of the ideal, and the basis that it makes of the
/// entries is the reduced standard basis, also where the degree doesn't fit.
pub fn plain_basis()
    ensures nothing_left { (P : Problem) (entries : List Entry) (g : Poly) → IsAdmissible P → Legal P entries → AllSettled P entries
        → IsInIdeal P g
        → Agree (ranks_of_problem P) (numbering_of P).count (remainder_by P entries (vector_of P g)) nothing }
    ensures reduced { (P : Problem) (entries : List Entry) → IsAdmissible P → Legal P entries → AllSettled P entries
        → IsReducedBasis P (basis P entries) }
{}

/// For every problem some list of entries is legal and settles every ticket below its total.
pub fn has_entries()
    ensures { (P : Problem) → IsAdmissible P
        → (entries : List Entry) × Legal P entries
        × ((item : Item) → HasTicket (length P.gens) item → ticket_of (length P.gens) item < total (length P.gens) (length entries) → IsSettled P entries item) }
{}

/// The corner of monic entries is that of their leads as monomials. Where every ticket is settled, it tells whether the degree fits.
pub fn corner_of_entries()
    ensures leads { (P : Problem) (entries : List Entry) → IsAdmissible P → AreMonic P entries
        → IsCorner (shape_of P) (map (λ e. lead_rank e.terms) entries) (corner P entries) }
    ensures number { (P : Problem) (entries : List Entry) → IsAdmissible P → AreMonic P entries
        → corner P entries ≡ corner_of_leads (shape_of P) (map (λ e. lead_rank e.terms) entries) }
    ensures fits { (P : Problem) (entries : List Entry) → IsAdmissible P → Legal P entries → AllSettled P entries
        → Fits P ↔ (corner P entries ≤ fewer P.n P.d) }
{}

/// Worked examples. A run uses an intermediate; another reads a corner that entries unknown to it brought about; pairs are skipped, or
/// lie beyond the degree; a degree doesn't fit. Then lists that aren't legal, and single steps, choices, divisions and tickets.
pub fn worked_examples()
    ensures intermediate_legal { Legal kept_problem kept_entries }
    ensures intermediate_settled { AllSettled kept_problem kept_entries }
    ensures intermediate_basis { basis kept_problem kept_entries ≡ kept_basis }
    ensures intermediate_reduced { IsReducedBasis kept_problem kept_basis }
    ensures racing_legal { Legal racing_problem racing_entries }
    ensures racing_corner_alone { corner racing_problem (take 1 racing_entries) ≡ 15 }
    ensures racing_corner_together { corner racing_problem (take 2 racing_entries) ≡ 5 }
    ensures curve_legal { Legal curve_problem curve_entries }
    ensures curve_settled { AllSettled curve_problem curve_entries }
    ensures curve_leads { leads curve_problem curve_entries ≡ curve_leads }
    ensures curve_corner { corner curve_problem curve_entries ≡ 21 }
    ensures curve_fits { Fits curve_problem }
    ensures curve_basis { basis curve_problem curve_entries ≡ curve_basis }
    ensures curve_reduced { IsReducedBasis curve_problem curve_basis }
    ensures cubes_legal { Legal cubes_problem cubes_entries }
    ensures cubes_settled { AllSettled cubes_problem cubes_entries }
    ensures cubes_corner { corner cubes_problem cubes_entries ≡ 9 }
    ensures cubes_first_missing { IsFirstMissing cubes_problem (2 ∷ 1 ∷ []) }
    ensures cubes_unsettled { ¬ AllSettled cubes_problem (cubes_first ∷ []) }
    ensures later_pair { ¬ Legal curve_problem later_pair }
    ensures unknown_entry { ¬ Legal cubes_problem unknown_entry }
    ensures other_multiple { ¬ Legal cubes_problem other_multiple }
    ensures low_corner { ¬ Legal racing_problem low_corner }
    ensures forgotten_entry { ¬ Legal kept_problem forgotten_entry }
    ensures high_corner { ¬ Legal racing_problem high_corner }
    ensures rising_corner { ¬ Legal rising_problem rising_corner }
    ensures short_run { ¬ Legal racing_problem short_run }
    ensures long_run { ¬ Legal racing_problem long_run }
    ensures not_skipped { skip curve_leads 0 1 ≡ None }
    ensures skipped_by_chain { skip curve_leads 1 3 ≡ Some (Chain 0) }
    ensures skipped_by_product { skip curve_leads 2 3 ≡ Some Product }
    ensures chain_of_earlier { skip curve_leads 0 2 ≡ None }
    ensures product_before_chain { skip ((1 ∷ 1 ∷ []) ∷ (2 ∷ 0 ∷ []) ∷ (0 ∷ 2 ∷ []) ∷ []) 1 2 ≡ Some Product }
    ensures chain_of_first { skip ((1 ∷ 2 ∷ []) ∷ (2 ∷ 1 ∷ []) ∷ (3 ∷ 0 ∷ []) ∷ (1 ∷ 4 ∷ []) ∷ []) 2 3 ≡ Some (Chain 0) }
    ensures no_chain_of_product { skip ((2 ∷ 0 ∷ []) ∷ (1 ∷ 1 ∷ []) ∷ (1 ∷ 2 ∷ []) ∷ []) 1 2 ≡ None }
    ensures items_of_tickets { map (item_of 2) (range_with_len 0 8) ≡ Generator 0 ∷ Generator 1 ∷ Pair 0 1 ∷ Pair 0 2 ∷ Pair 1 2 ∷ Pair 0 3 ∷ Pair 1 3 ∷ Pair 2 3 ∷ [] }
    ensures tickets_of_items { map (ticket_of 2) (map (item_of 2) (range_with_len 0 8)) ≡ range_with_len 0 8 }
    ensures tickets_of_four_entries { total 2 4 ≡ 8 }
    ensures ecart_of_three_terms { ecart powers (vector_of_terms (term 1 1 ∷ term 2 1 ∷ term 3 1 ∷ [])) ≡ 2 }
    ensures least_ecart { chosen 3 ((term 1 1 ∷ term 3 1 ∷ []) ∷ (term 2 1 ∷ term 3 1 ∷ []) ∷ []) ≡ Some (term 2 1 ∷ term 3 1 ∷ []) }
    ensures first_of_least_ecart { chosen 3 ((term 1 1 ∷ term 2 1 ∷ []) ∷ (term 2 1 ∷ term 3 1 ∷ []) ∷ []) ≡ Some (term 1 1 ∷ term 2 1 ∷ []) }
    ensures greater_ecart_keeps { step_on ((term 1 1 ∷ term 2 1 ∷ []) ∷ (term 1 1 ∷ []) ∷ []) [] (term 1 1 ∷ []) (reading 1 5)
        ≡ record { end = Some Reduced; left = term 2 6 ∷ []; kept = (term 1 1 ∷ []) ∷ [] } }
    ensures equal_ecart_keeps_nothing { step_on ((term 1 1 ∷ term 2 2 ∷ []) ∷ []) [] (term 1 1 ∷ term 2 1 ∷ []) (reading 1 5)
        ≡ record { end = Some Reduced; left = term 2 6 ∷ []; kept = [] } }
    ensures entries_before_intermediates { step_on ((term 1 1 ∷ term 2 1 ∷ []) ∷ []) ((term 1 1 ∷ term 2 6 ∷ []) ∷ []) (term 1 1 ∷ []) (reading 1 5)
        ≡ record { end = Some Reduced; left = term 2 6 ∷ []; kept = (term 1 1 ∷ term 2 6 ∷ []) ∷ (term 1 1 ∷ []) ∷ [] } }
    ensures multiple_of_intermediate { step_on [] ((term 1 2 ∷ term 2 1 ∷ []) ∷ []) (term 2 3 ∷ []) (reading 0 5)
        ≡ record { end = Some Reduced; left = term 3 2 ∷ []; kept = (term 1 2 ∷ term 2 1 ∷ []) ∷ (term 2 3 ∷ []) ∷ [] } }
    ensures cut_behind_corner { step_on [] [] (term 2 1 ∷ term 3 1 ∷ []) (reading 0 3) ≡ record { end = Some Stuck; left = term 2 1 ∷ []; kept = [] } }
    ensures cut_to_zero { step_on [] [] (term 2 1 ∷ term 3 1 ∷ []) (reading 0 2) ≡ record { end = Some Zero; left = []; kept = [] } }
    ensures made_monic { terms_of powers (monic powers (vector_of_terms (term 1 2 ∷ term 2 3 ∷ []))) ≡ term 1 1 ∷ term 2 5 ∷ [] }
    ensures start_of_pair { terms_of (ranks_of_problem curve_problem) (start curve_problem curve_entries (Pair 0 1)) ≡ term 15 16004 ∷ term 20 15999 ∷ [] }
    ensures divided_by_first { divided ((term 4 1 ∷ term 9 1 ∷ []) ∷ (term 1 1 ∷ term 5 2 ∷ []) ∷ []) (term 4 1 ∷ []) ≡ term 9 32002 ∷ [] }
    ensures minimal_leads { basis (plane 3 []) (bare ((term 3 1 ∷ []) ∷ (term 1 1 ∷ term 5 1 ∷ []) ∷ [])) ≡ (written 1 1 0 ∷ written 1 0 2 ∷ []) ∷ [] }
{}
