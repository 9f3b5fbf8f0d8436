//! Laws of the JSON of AWS's protocols, each the contract of a function that does nothing.
ghost use Rattle.smithy_wire.specs.Laws.{IsReadBack, IsTextLawful, UndoesItself, TextsDiffer};
ghost use Rattle.smithy_wire.specs.Laws.{ValueIsExact, WholeIsExact, BodyIsExact};
ghost use Rattle.smithy_wire.specs.Laws.{ReadsNormalForm, ReadsNormalStructure, ValuesAreSaid, FieldsAreSaid};

/// Where names stand, a name that is changed twice is the name again.
pub fn swaps_undo_themselves()
    ensures { UndoesItself }
{}

/// What is written for a document that a program can hold is read as that document, at each node whose names stand, and at
/// each node where JSON names are not applied.
#[tactic(auto, using(crate::proofs::LawfulTexts::is_read_back))]
pub fn documents_are_read_back()
    ensures { IsReadBack }
{}

/// No text is empty, and each text of a document nested up to 100 levels is read back as that document.
#[tactic(auto, using(crate::proofs::LawfulTexts::is_text_lawful))]
pub fn texts_are_lawful()
    ensures { IsTextLawful }
{}

/// No two documents nested up to 100 levels have one text.
#[tactic(auto, using(crate::proofs::LawfulTexts::texts_differ))]
pub fn texts_tell_apart()
    ensures { TextsDiffer }
{}

/// Nothing is found in a value exactly where it follows its node at every depth, and nothing is told of an input of a
/// structure, by its body or whole, exactly where each of its writes there is of a member whose node its value follows.
pub fn misfits_are_exact()
    ensures value { ValueIsExact }
    ensures whole { WholeIsExact }
    ensures body { BodyIsExact }
{}

/// The text of a value that follows a node at every depth, read by that node, gives the value's normal form: whatever form
/// it is written and read by, where names stand, and where a program can hold its document, of at most 100 levels.
pub fn values_are_read_back()
    ensures value { ReadsNormalForm }
    ensures structure { ReadsNormalStructure }
{}

/// The JSON of a value in which nothing is found is what the traits of its shapes say: a structure is the object of its
/// members by their names in JSON, a time its text or its seconds, a big number a number, a blob its base64 text.
pub fn values_are_said()
    ensures value { ValuesAreSaid }
    ensures fields { FieldsAreSaid }
{}
