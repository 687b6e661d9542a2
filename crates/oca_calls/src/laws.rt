//! What the definitions of this crate say of one another.
ghost use Rattle.oca_calls.specs.WrittenAgain.{WrittenMakesAgain};
ghost use Rattle.oca_calls.specs.CWords.{WordsAreReadBack};
ghost use Rattle.oca_calls.specs.WaitingAnswers.{WaitsAsKept};

use oca_tree::law_of_copies;

/// Law: the struct that describes an object of a device makes the same object again when it is added. The new object is
/// not locked, and its hardware does not refuse. The function does nothing at run time.
pub fn law_of_specs()
    ensures { WrittenMakesAgain }
{
    law_of_copies();
}

/// Law: the answers to a datagram wait in the same cases as in a device that keeps its objects in a store
/// ([`serve_keeping`](oca_device::serve_keeping)). The function does nothing at run time.
#[tactic(auto, using(crate::proofs::Waits::waits_as_kept))]
pub fn law_of_waits()
    ensures { WaitsAsKept }
{}

/// Law: the word that is written for a value, read as a word of the value's class, gives this value again. The function
/// does nothing at run time.
#[tactic(auto, using(crate::proofs::WordsAgain::read_back))]
pub fn law_of_words()
    ensures { WordsAreReadBack }
{}
