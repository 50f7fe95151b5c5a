//! What the program is asked to do.
ghost use Rattle.std.specs.Prelude.{◌≡◌, map, string_bytes};
ghost use Rattle.catalogue_check.specs.Asked.{asked_of, is_drop_word, task_told};

/// How the program is called, on standard error where the arguments ask for nothing that it does.
pub(crate) const USAGE: &str = "usage: catalogue_check [--drop-torn] FOLDER";

/// What there is to do with the folder at the path.
#[derive(Clone, Copy)]
pub(crate) enum Task<'a> {
    /// Judge it.
    Judge(&'a str),
    /// Delete the file of a torn commit over a whole one, and judge what is there then.
    DropTorn(&'a str),
    /// Say how the program is called.
    Usage,
}

/// Whether the word is the one in front of the path of a folder whose torn commit is to be dropped.
#[tactic(auto, unfolding(crate::specs::Asked::is_drop_word))]
fn asks_to_drop(word: &str) -> bool
    ensures { result ≡ is_drop_word word.now }
{
    word == "--drop-torn"
}

impl<'a> Task<'a> {
    /// The task that the words behind the program's name ask for: a path alone is to be judged, and behind `--drop-torn` also
    /// changed. `--drop-torn` alone is no path.
    pub(crate) fn asked_by(words: &'a [String]) -> Task<'a>
        ensures { task_told result ≡ asked_of (map string_bytes words.now) }
    {
        match words {
            [word] if asks_to_drop(word.as_str()) => Task::Usage,
            [path] => Task::Judge(path.as_str()),
            [word, path] if asks_to_drop(word.as_str()) => Task::DropTorn(path.as_str()),
            _ => Task::Usage,
        }
    }
}
