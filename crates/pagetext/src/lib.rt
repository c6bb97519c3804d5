//! The text of pages as definitions (specs/Text), what a page says (specs/Reading), and the theorems that it can be read
//! back (specs/Laws), each the contract of a function that does nothing: the crate is proved only if they hold.
#![tactic(auto)]

ghost use Rattle.pagetext.specs.Laws.{DecimalLaw, ReadBackLaw, SamePageLaw};

/// The numbers on pages are written as decimals.
#[tactic(auto, using(crate::proofs::Figures::decimals))]
pub fn numbers_are_decimal()
    ensures { DecimalLaw }
{}

/// A page can be read back: its bytes say the number, mode, root, marks and entries of its node.
#[tactic(auto, using(crate::proofs::ReadBack::reads_back))]
pub fn page_reads_back()
    ensures { ReadBackLaw }
{}

/// Two nodes with the same page agree in all of these. Only the slots left to a recovering node are not on a page.
pub fn same_page_same_node()
    ensures { SamePageLaw }
{}
