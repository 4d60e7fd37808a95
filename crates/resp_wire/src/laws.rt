//! Laws of the definitions, which the check proves. Each function's contract is one.

ghost use Rattle.resp_wire.specs.Holding.{FaultsStay, NoneIsAFront, RequestsGoOn, WholesJoin};
ghost use Rattle.resp_wire.specs.Encoding.{LinesAreRead, OnlyTextsAreRead, TextsAreRead, WordsAreWithinLimits};

/// However a text goes on, it keeps its requests.
#[tactic(auto, using(crate::specs::HoldingLaws::requests_go_on))]
pub fn requests_go_on()
    ensures { RequestsGoOn }
{}

/// However a text goes on, it keeps its fault.
#[tactic(auto, using(crate::specs::HoldingLaws::faults_stay))]
pub fn faults_stay()
    ensures { FaultsStay }
{}

/// No request is a proper front of another.
#[tactic(auto, using(crate::specs::HoldingLaws::none_is_a_front))]
pub fn none_is_a_front()
    ensures { NoneIsAFront }
{}

/// Behind a text that ends with a request the next one begins.
#[tactic(auto, using(crate::specs::HoldingLaws::wholes_join))]
pub fn wholes_join()
    ensures { WholesJoin }
{}

/// The words that a client writes within the limits are read, whatever follows them.
#[tactic(auto, using(crate::specs::EncodingLaws::texts_are_read))]
pub fn texts_are_read()
    ensures { TextsAreRead }
{}

/// The words of an inline line are read, whatever follows its line feed.
#[tactic(auto, using(crate::specs::EncodingLaws::lines_are_read))]
pub fn lines_are_read()
    ensures { LinesAreRead }
{}

/// Nothing else is read: a request is the text of its words, or `*-1` and a line end, or an inline line of its words.
/// Its words are within the limits of a request.
#[tactic(auto, using(crate::specs::WrittenLaws::only_texts_are_read))]
pub fn only_texts_are_read()
    ensures { OnlyTextsAreRead }
{}

/// The words of each request of a text are within the limits of a request, in an array or a line.
pub fn words_are_within_limits()
    ensures { WordsAreWithinLimits }
{}
