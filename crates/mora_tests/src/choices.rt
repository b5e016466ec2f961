//! Reducers of x^2 that were chosen by hand, in x and y up to degree 4.

ghost use Rattle.std.specs.Prelude.{◌≤◌, All, IsTrue};
ghost use Rattle.ecart.specs.Choice.{IsSummary};

use ecart::{Choice, Summary, choose, ecart};
use mono_rank::RankTable;
use std::test::Fail;

// x^2
const RANK: u32 = 3;

// polynomials that begin with x, of greatest degree 1, 2 and 3
const LINE: Summary = Summary {
    lead: 1,
    lead_degree: 1,
    top_degree: 1,
};

const CONIC: Summary = Summary {
    lead: 1,
    lead_degree: 1,
    top_degree: 2,
};

const CUBIC: Summary = Summary {
    lead: 1,
    lead_degree: 1,
    top_degree: 3,
};

/// Whether this can be the summary of a polynomial.
fn is_summary(table: &RankTable, s: Summary) -> bool
    ensures { IsTrue result → IsSummary table.now s }
{
    s.lead < table.count() && s.lead_degree <= s.top_degree
}

/// Whether all can be.
fn are_summaries(table: &RankTable, list: &[Summary]) -> bool
    ensures { IsTrue result → All (IsSummary table.now) list.now }
{
    for i in 0..list.len() {
        if !is_summary(table, list[i]) {
            return false;
        }
    }
    true
}

/// What is chosen.
fn chosen(table: &RankTable, list: &[Summary], kept: &[Summary]) -> Result<Option<Choice>, Fail> {
    if list.len() > 10 || kept.len() > 10 || RANK >= table.count() {
        return Err("beyond the limits")?;
    }
    if !are_summaries(table, list) || !are_summaries(table, kept) {
        return Err("no summary")?;
    }
    Ok(choose(table, list, kept, RANK))
}

/// The ecart.
fn ecart_of(s: Summary) -> Option<u32> {
    if s.lead_degree > s.top_degree {
        return None;
    }
    Some(ecart(s))
}

/// Entries, intermediates, and what is chosen of them.
const CHOICES: &[(&[Summary], &[Summary], Option<Choice>)] = &[
    // the least ecart comes first
    (&[CUBIC], &[LINE], Some(Choice::Kept(0))),
    // on a tie entries come first, and of them the first one
    (&[LINE], &[LINE], Some(Choice::Entry(0))),
    (&[CONIC, LINE, LINE], &[], Some(Choice::Entry(1))),
    // none where no lead divides
    (&[], &[], None),
];

#[test]
fn choices(rt: HostRuntime) -> Result<(), Fail> {
    let table = RankTable::new(rt.alloc(), 2, 4)?;
    for (list, kept, want) in CHOICES {
        assert!(rt; chosen(&table, list, kept)? == *want);
    }
    Ok(())
}

#[test]
fn ecarts(rt: HostRuntime) {
    assert!(rt; ecart_of(CUBIC) == Some(2));
}
