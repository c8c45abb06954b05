// What is promised of every command line, whatever reads it.
ghost use Rattle.x_line.specs.Laws.{AcceptsApart, ComparesApart, FewEvents, HasOrder, MirrorsApart, OneOrder, PaysApart, SpoolsApart};

/// Words in which nothing is wrong stand for an order.
#[tactic(auto, using(crate::proofs::Ordering::has_order))]
pub fn law_has_order()
    ensures { HasOrder }
{}

/// Words stand for one order at most, of a party with one disk or with two.
#[tactic(auto, using(crate::proofs::Ordering::one_order))]
pub fn law_one_order()
    ensures { OneOrder }
{}

/// Words that stand for a drill give it 1 to 10,000 events.
pub fn law_few_events()
    ensures { FewEvents }
{}

/// Words that stand for a payment give its ledger another name than the party.
pub fn law_ledger_apart()
    ensures pays { PaysApart }
    ensures accepts { AcceptsApart }
{}

/// Words that stand for a batch that is taken give its spool another name than the party.
pub fn law_spool_apart()
    ensures { SpoolsApart }
{}

/// A second disk is named with the orders alone that act on two, and under another name than the party.
pub fn law_mirror_apart()
    ensures mirrors { MirrorsApart }
    ensures compares { ComparesApart }
{}
