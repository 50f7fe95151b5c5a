//! What the program asks of its system, and what it tells. What the system has in a folder, whether it is the one that was asked
//! for, who has its lock, and what comes of what is told, no contract can know; so a program is proved whatever is answered, and
//! by what it asked, in its order, and nothing else.
ghost use Rattle.std.specs.Prelude.{map, option_map, string_bytes};
ghost use Rattle.catalogue_check.specs.Acts.{CheckAct};

use crate::arguments::USAGE;
use crate::news::News;
use cat_check::{Checked, Standing, tell, tell_standing};
use cat_directory::{Directory, Folder, FolderLock, LockRefusal, Shelf};
use std::alloc::AllocError;
use std::fs::File;
use std::io::{BufWriter, Write};
use std::{env, io};

/// What is asked and told.
pub(crate) trait System {
    type Folder: Directory + Shelf + Drop;

    /// The lock of a folder, or a share of it, until it is dropped.
    type Lock: Drop;

    /// From the one to the other this was asked or told, and nothing else.
    ghost does: { Self → CheckAct Self.Folder Self.Lock → Self → Type 0 };

    /// The words behind the program's name. None where they can't be read.
    fn words(&mut self) -> Option<Vec<String>>
        ensures { does self.old (CheckAct.heard (option_map (λ words. map string_bytes words.items) result)) self.new };

    /// The folder at the path. It isn't touched yet.
    fn folder_at(&mut self, path: &str) -> Result<Self::Folder, AllocError>
        ensures { does self.old (CheckAct.opened path.now result) self.new };

    /// The folder is let go as it is now.
    fn leave(&mut self, folder: Self::Folder)
        ensures { does self.old (CheckAct.left folder) self.new };

    /// The lock of the folder at the path, without waiting for it.
    fn lock(&mut self, path: &str) -> Result<Self::Lock, LockRefusal>
        ensures { does self.old (CheckAct.locked path.now result) self.new };

    /// A share of the lock of the folder at the path, without waiting for it.
    fn share(&mut self, path: &str) -> Result<Self::Lock, LockRefusal>
        ensures { does self.old (CheckAct.shared path.now result) self.new };

    /// The lock, or the share of it, is given back.
    fn unlock(&mut self, lock: Self::Lock)
        ensures { does self.old (CheckAct.unlocked lock) self.new };

    /// Tells what is found. What can't be written is lost.
    fn show(&mut self, checked: &Checked)
        ensures { does self.old (CheckAct.found checked.now) self.new };

    /// Tells what was dropped, or why nothing was.
    fn show_standing(&mut self, standing: Standing)
        ensures { does self.old (CheckAct.dropped standing) self.new };

    /// Says the news.
    fn say(&mut self, news: News)
        ensures { does self.old (CheckAct.said news) self.new };
}

/// The words behind the program's name.
fn words_of(rt: &HostRuntime) -> io::Result<Vec<String>> {
    Ok(env::args(rt)?.skip(1).collect(rt.alloc())?)
}

/// Writes what is found, gathered into few writes.
fn write_found(rt: &HostRuntime, checked: &Checked) -> io::Result<()> {
    let mut out = BufWriter::new(rt.alloc(), io::writer(rt))?;
    tell(&mut out, checked)?;
    out.flush()
}

/// Writes the news, on standard error but for what takes the place of what was dropped.
fn write_news(rt: &HostRuntime, news: News) -> io::Result<()> {
    match news {
        News::Usage => rt.eprintln(USAGE),
        News::InUse => eprintln!(rt; "catalogue_check: folder in use"),
        News::NotDropped => rt.println("dropped nothing: a program works over the folder"),
        News::Refused(refusal) => eprintln!(rt; "catalogue_check: {refusal}"),
    }
}

impl System for HostRuntime {
    type Folder = Folder<HostRuntime>;

    type Lock = FolderLock<File>;

    ghost does = { λ before act after. Unit {0} };

    fn words(&mut self) -> Option<Vec<String>> {
        words_of(self).ok()
    }

    fn folder_at(&mut self, path: &str) -> Result<Folder<HostRuntime>, AllocError> {
        Folder::at(self.clone()?, self.alloc(), path)
    }

    fn leave(&mut self, _folder: Folder<HostRuntime>) {}

    fn lock(&mut self, path: &str) -> Result<FolderLock<File>, LockRefusal> {
        FolderLock::take(self, self.alloc(), path)
    }

    fn share(&mut self, path: &str) -> Result<FolderLock<File>, LockRefusal> {
        FolderLock::share(self, self.alloc(), path)
    }

    fn unlock(&mut self, _lock: FolderLock<File>) {}

    fn show(&mut self, checked: &Checked) {
        let _ = write_found(self, checked);
    }

    fn show_standing(&mut self, standing: Standing) {
        let _ = tell_standing(&mut io::writer(self), standing);
    }

    fn say(&mut self, news: News) {
        let _ = write_news(self, news);
    }
}
