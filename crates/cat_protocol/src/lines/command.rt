//! Commands, and the texts that spell them.
ghost use Rattle.std.specs.Prelude.{codes, ◌≢◌, ◌∷◌, ◌++◌};
ghost use Rattle.cat_protocol.specs.lines.Line.{said_of, SpellsOrNot};
ghost use Rattle.cat_protocol.specs.lines.Words.{HasNoSpace};

use crate::lines::facets::Facets;
use crate::lines::find::Find;
use crate::lines::words::{split_number, split_word};
use cat_base::{Generation, Token, parse_number};

/// A command with its arguments as they came: no item, id, query or text of a commit has been looked at.
#[derive(Clone, Copy)]
pub enum Command<'a> {
    /// The line has a session and no form.
    NoForm,
    Put(&'a str),
    Delete(&'a str),
    /// Of the items that the query matches (Lucene: `IndexWriter.deleteDocuments` of a query).
    DeleteWhere(&'a str),
    Refresh,
    /// Of the token, or of the newest recorded view.
    Open(Option<Token>),
    Close(Token),
    Find(Find<'a>),
    Facets(Facets<'a>),
    /// The stored item of an id (Lucene: `StoredFields.document`).
    Get { token: Token, id: &'a str },
    FilesOfToken(Token),
    FilesOfCommit(Generation),
    /// With its text, which is empty where none was given (Lucene: `IndexWriter.setLiveCommitData`).
    Commit(&'a str),
    /// What text a commit was given.
    Note(Generation),
    Snapshot,
    Unsnapshot(Generation),
    /// Of the recorded views that nobody holds, but for the greatest so many.
    Prune(u64),
    Merge,
    Force,
    Warm,
    Sweep,
    Stat,
}

impl<'a> Command<'a> {
    /// The command that the text behind the session spells.
    pub(crate) fn read(text: &'a str) -> Command<'a>
        ensures { SpellsOrNot text.now (said_of result) }
    {
        match split_word(text) {
            None => Command::alone(text),
            Some((name, rest)) => Command::with_arguments(name, rest),
        }
    }

    /// The command of this name, without arguments.
    fn alone(name: &'a str) -> Command<'a>
        requires one_word { HasNoSpace name.now }
        ensures { SpellsOrNot name.now (said_of result) }
    {
        match name {
            "REFRESH" => Command::Refresh,
            "OPEN" => Command::Open(None),
            "COMMIT" => Command::Commit(""),
            "SNAP" => Command::Snapshot,
            "MERGE" => Command::Merge,
            "FORCE" => Command::Force,
            "WARM" => Command::Warm,
            "SWEEP" => Command::Sweep,
            "STAT" => Command::Stat,
            _ => Command::NoForm,
        }
    }

    /// The command of this name, with what stands behind the space.
    fn with_arguments(name: &'a str, rest: &'a str) -> Command<'a>
        requires one_word { HasNoSpace name.now }
        ensures { SpellsOrNot (name.now ++ 32 ∷ rest.now) (said_of result) }
    {
        match name {
            "PUT" => Command::Put(rest),
            "DEL" => Command::Delete(rest),
            "DELW" => Command::DeleteWhere(rest),
            _ => Command::not_writing(name, rest),
        }
    }

    /// The same for a name that no write has.
    fn not_writing(name: &'a str, rest: &'a str) -> Command<'a>
        requires one_word { HasNoSpace name.now }
        requires others { (name.now ≢ codes "PUT") × (name.now ≢ codes "DEL") × (name.now ≢ codes "DELW") }
        ensures { SpellsOrNot (name.now ++ 32 ∷ rest.now) (said_of result) }
    {
        match name {
            "OPEN" => Command::open_at(rest),
            "CLOSE" => Command::close(rest),
            "FIND" => Command::find(rest),
            "FACETS" => Command::facets(rest),
            "GET" => Command::get(rest),
            "FILES" => Command::files(rest),
            "COMMIT" => Command::commit(rest),
            "NOTE" => Command::note(rest),
            "UNSNAP" => Command::unsnapshot(rest),
            "PRUNE" => Command::prune(rest),
            _ => Command::NoForm,
        }
    }

    /// What stands behind `OPEN` and a space: a token.
    fn open_at(rest: &str) -> Command<'_>
        ensures { SpellsOrNot (codes "OPEN" ++ 32 ∷ rest.now) (said_of result) }
    {
        match parse_number(rest) {
            Some(token) => Command::Open(Some(token)),
            None => Command::NoForm,
        }
    }

    /// Behind `CLOSE`: a token.
    fn close(rest: &str) -> Command<'_>
        ensures { SpellsOrNot (codes "CLOSE" ++ 32 ∷ rest.now) (said_of result) }
    {
        match parse_number(rest) {
            Some(token) => Command::Close(token),
            None => Command::NoForm,
        }
    }

    /// Behind `FIND`: a token, a count, a sort, a mark and a query.
    fn find(rest: &str) -> Command<'_>
        ensures { SpellsOrNot (codes "FIND" ++ 32 ∷ rest.now) (said_of result) }
    {
        match Find::read(rest) {
            Some(find) => Command::Find(find),
            None => Command::NoForm,
        }
    }

    /// Behind `FACETS`: a token, the name of a dimension, a count and a query.
    fn facets(rest: &str) -> Command<'_>
        ensures { SpellsOrNot (codes "FACETS" ++ 32 ∷ rest.now) (said_of result) }
    {
        match Facets::read(rest) {
            Some(facets) => Command::Facets(facets),
            None => Command::NoForm,
        }
    }

    /// Behind `GET`: a token and an id.
    fn get(rest: &str) -> Command<'_>
        ensures { SpellsOrNot (codes "GET" ++ 32 ∷ rest.now) (said_of result) }
    {
        match split_number(rest) {
            Some((token, id)) => Command::Get { token, id },
            None => Command::NoForm,
        }
    }

    /// Behind `FILES`: `t` and a token, or `g` and the generation of a commit.
    fn files(rest: &str) -> Command<'_>
        ensures { SpellsOrNot (codes "FILES" ++ 32 ∷ rest.now) (said_of result) }
    {
        let Some((kind, digits)) = split_word(rest) else {
            return Command::NoForm;
        };
        let Some(number) = parse_number(digits) else {
            return Command::NoForm;
        };
        match kind {
            "t" => Command::FilesOfToken(number),
            "g" => Command::FilesOfCommit(number),
            _ => Command::NoForm,
        }
    }

    /// Behind `COMMIT`: a text that isn't empty, since a commit with the empty one has one spelling.
    fn commit(rest: &str) -> Command<'_>
        ensures { SpellsOrNot (codes "COMMIT" ++ 32 ∷ rest.now) (said_of result) }
    {
        if rest.is_empty() {
            return Command::NoForm;
        }
        Command::Commit(rest)
    }

    /// Behind `NOTE`: the generation of a commit.
    fn note(rest: &str) -> Command<'_>
        ensures { SpellsOrNot (codes "NOTE" ++ 32 ∷ rest.now) (said_of result) }
    {
        match parse_number(rest) {
            Some(generation) => Command::Note(generation),
            None => Command::NoForm,
        }
    }

    /// Behind `UNSNAP`: the generation of a commit.
    fn unsnapshot(rest: &str) -> Command<'_>
        ensures { SpellsOrNot (codes "UNSNAP" ++ 32 ∷ rest.now) (said_of result) }
    {
        match parse_number(rest) {
            Some(generation) => Command::Unsnapshot(generation),
            None => Command::NoForm,
        }
    }

    /// Behind `PRUNE`: how many views are to stay.
    fn prune(rest: &str) -> Command<'_>
        ensures { SpellsOrNot (codes "PRUNE" ++ 32 ∷ rest.now) (said_of result) }
    {
        match parse_number(rest) {
            Some(count) => Command::Prune(count),
            None => Command::NoForm,
        }
    }
}
