//! Laws of every turned line and of every event, as contracts of functions that do nothing.
ghost use Rattle.esm_ddb.specs.BatchEvents.{AreStatesKept, AreStatesWhereNone, HaveTheirElements, HaveTheirElementsRunning};
ghost use Rattle.esm_ddb.specs.GoesOn.{IsCarriedOn, IsWholeOfFront};
ghost use Rattle.esm_ddb.specs.ItemText.{AreNamesInOrder};
ghost use Rattle.esm_ddb.specs.LineByLine.{AreOfChanges, HasRecordsOfLines, IsTurnedLineByLine};
ghost use Rattle.esm_ddb.specs.ReadsBack.{IsReadBack};
ghost use Rattle.esm_ddb.specs.RunEvent.{HasAnsweredState, HasFirstState, HasItsElements, HasSourceOfBytes, IsNoLonger};

/// A line that is turned and is not blank reads back, as a line of a stream's input, as the record of the change that it
/// states.
pub fn turned_reads_back()
    ensures { IsReadBack }
{}

/// The k-th line of the turned text is what the k-th line of the input was turned into; there are as many as the input
/// has good lines, and no others.
pub fn turned_line_by_line()
    ensures { IsTurnedLineByLine }
{}

/// The records that are read from the turned text, or from a prefix of it, are those of the changes that the input's good
/// lines state: one for each line that is not blank, in their order.
pub fn records_are_of_lines()
    ensures lines { HasRecordsOfLines }
    ensures changes { AreOfChanges }
{}

/// What the first bytes of an input are turned into is a prefix of what all of it is turned into, and a bad line among
/// them is the bad line of the whole.
pub fn turned_goes_on()
    ensures { IsCarriedOn }
{}

/// The event of a stream's batch whose records are those of changes is turned into the event of exactly the elements that
/// they carry, in the order of the batch. What it says of its tumbling window is unchanged, if the window's state reads
/// as an object. The event does not become longer.
pub fn event_has_its_elements()
    ensures elements { HasItsElements }
    ensures first_state { HasFirstState }
    ensures length { IsNoLonger }
    ensures source { HasSourceOfBytes }
{}

/// The state that a window has after any answer of the function reads as an object, also in an event.
pub fn answered_state_reads()
    ensures { HasAnsweredState }
{}

/// In a run over records of changes, the calls of each batcher are those of its history, in their order, and each has
/// exactly the elements of its batch. So has each call that is still running. If the mapping has tumbling windows, the
/// states that were found at opening have to read as objects. They do where none was found, and where they do, each state
/// that the run keeps does too.
pub fn calls_have_their_elements()
    ensures states { AreStatesWhereNone }
    ensures kept { AreStatesKept }
    ensures calls { HaveTheirElements }
    ensures running { HaveTheirElementsRunning }
{}

/// An example of the text of an item's keys and images: members are in the order of their names' bytes, and if a name
/// occurs twice, the last value counts.
pub fn names_are_in_order()
    ensures { AreNamesInOrder }
{}

/// What the ended lines of an input are turned into is all that its bytes up to the last line feed are turned into.
pub fn ended_lines_are_whole()
    ensures { IsWholeOfFront }
{}
