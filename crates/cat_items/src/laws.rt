//! The laws over what texts of JSON are read as.
ghost use Rattle.cat_items.specs.Laws.{TextsOfSchemasKeepTheRules, EveryLineIsHeardOneWay, EveryInputIsHeardOneWay, EveryAnswerIsOneTalk, HeldReadsAgreeInBytes};

/// Each text that is read as a schema is one: it has at most 32 fields, each with the name of a field, and the names
/// rise by bytes, whatever the order of the members and however often a name comes.
///
/// The rules are our own; Lucene's `FieldInfos` grow with the documents.
pub fn texts_of_schemas_keep_the_rules()
    ensures { TextsOfSchemasKeepTheRules }
{}

/// Under a schema that is read from a text, what is heard of a line is one thing: a command, a line without a form, or
/// nothing readable. The protocol is our own.
pub fn every_line_is_heard_one_way()
    ensures { EveryLineIsHeardOneWay }
{}

/// Whatever two directories tell, a service that a schema line opens over each has one schema, and hears each line behind
/// it in one way. Where neither has a file, both are opened in one way, and differ in replies alone. The protocol is our
/// own.
pub fn every_input_is_heard_one_way()
    ensures { EveryInputIsHeardOneWay }
{}

/// What answers the lines of an input is one talk, whatever was opened: the output can be cut into a reply for each line,
/// and in one way only, since a line begins a reply exactly where its second word is OK or NO. No text of an item or of a
/// commit, and no name of a file can forge one. It asks that none with a line feed stands in what was opened.
///
/// The protocol is our own.
pub fn every_answer_is_one_talk()
    ensures { EveryAnswerIsOneTalk }
{}

/// Over bytes alone. Take two services that begin with one schema, one table and one number of writes, and whatever
/// answers their lines. Where each write (PUT, DEL, DELW) that was answered OK and a number up to t has the same text in both, a FIND, a FACETS or a GET
/// under t gets the same reply in both, but for the session's number, from sessions that hold t there; unless it was
/// answered 30, 31 or 40, or the line couldn't be read.
///
/// Lucene promises it of one searcher; that it holds between two runs is our own claim.
pub fn held_reads_agree_in_bytes()
    ensures { HeldReadsAgreeInBytes }
{}
