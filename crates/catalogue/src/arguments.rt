//! What the program is asked to do.
ghost use Rattle.std.specs.Prelude.{◌≡◌, ◌&&◌, None, bytes_eq, codes, if◌then◌else◌, map, string_bytes};
ghost use Rattle.catalogue.specs.Asked.{alone, asked_of, count_spelled, task_told, with_path};

use cat_base::parse_number;
use cat_callers::MAX_THREADS;

/// How the program is called, on standard error where the arguments ask for nothing that it does.
pub(crate) const USAGE: &str =
    "usage: catalogue [run [--threads N] [FOLDER] | threads FOLDER | --version]";

/// What the program calls itself: the version is that of the file VERSION, and of the client that is released with it.
pub(crate) const VERSION: &str = "jasminedome 0.1.0";

/// What there is to do.
#[derive(Clone, Copy)]
pub(crate) enum Task<'a> {
    /// Serve standard input to standard output, in memory.
    InMemory,
    /// Serve standard input to standard output over the folder at the path, which is taken as given.
    InFolder(&'a str),
    /// Serve standard input to standard output over the folder at the path, each session in a thread of its own.
    InThreads(&'a str),
    /// Serve standard input to standard output in memory, by so many threads.
    StreamedInMemory(usize),
    /// Serve standard input to standard output over the folder at the path, by so many threads.
    StreamedInFolder(usize, &'a str),
    /// Say the version.
    Version,
    /// Say how the program is called.
    Usage,
}

/// The number of threads that the word spells, 1 to [`MAX_THREADS`].
fn thread_count(word: &str) -> Option<usize>
    ensures { result ≡ count_spelled word.now }
{
    match parse_number(word) {
        Some(count) if 0 < count && count <= MAX_THREADS as u64 => Some(count as usize),
        _ => None,
    }
}

/// What one word asks for.
fn task_of_word<'a>(word: &str) -> Task<'a>
    ensures { task_told result ≡ alone (bytes_eq word.now (codes "run")) (bytes_eq word.now (codes "--version")) }
{
    match word {
        "run" => Task::InMemory,
        "--version" => Task::Version,
        _ => Task::Usage,
    }
}

/// What a word with a path behind it asks for.
fn task_at_path<'a>(word: &str, path: &'a str) -> Task<'a>
    ensures { task_told result ≡ with_path (bytes_eq word.now (codes "run")) (bytes_eq word.now (codes "threads")) path.now }
{
    match word {
        "run" => Task::InFolder(path),
        "threads" => Task::InThreads(path),
        _ => Task::Usage,
    }
}

/// By how many threads the words ask to serve.
fn threads_asked(word: &str, option: &str, count: &str) -> Option<usize>
    ensures { result ≡ if bytes_eq word.now (codes "run") && bytes_eq option.now (codes "--threads") then count_spelled count.now else None }
{
    if word == "run" && option == "--threads" {
        thread_count(count)
    } else {
        None
    }
}

impl<'a> Task<'a> {
    /// The task that the words behind the program's name ask for: to serve in memory is no word, or `run` alone; `run` with one
    /// word behind it is to serve over the folder of that path, and `threads` with one is to do so in threads; `--threads` and
    /// a number behind `run` are to serve so by that many threads; `--version` alone is to say the version.
    pub(crate) fn asked_by(words: &'a [String]) -> Task<'a>
        ensures { task_told result ≡ asked_of (map string_bytes words.now) }
    {
        match words {
            [] => Task::InMemory,
            [word] => task_of_word(word.as_str()),
            [word, path] => task_at_path(word.as_str(), path.as_str()),
            [word, option, count] => {
                match threads_asked(word.as_str(), option.as_str(), count.as_str()) {
                    Some(count) => Task::StreamedInMemory(count),
                    None => Task::Usage,
                }
            }
            [word, option, count, path] => {
                match threads_asked(word.as_str(), option.as_str(), count.as_str()) {
                    Some(count) => Task::StreamedInFolder(count, path.as_str()),
                    None => Task::Usage,
                }
            }
            _ => Task::Usage,
        }
    }
}
