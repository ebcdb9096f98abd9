//! The archive: each page of the journal in a file of its own, once it is claimed.
ghost use Rattle.std.specs.Prelude.{◌≡◌, ◌++◌, ◌∷◌, map, string_bytes, IfOk, OnOk};
ghost use Rattle.std.specs.Io.KnownBytes.{Appends};
ghost use Rattle.sipl_archive.specs.Archive.{WritesPiece, client_text, digest_line, families_text, file_text};
ghost use Rattle.sipl_archive.specs.Archive.{greatest_run, held_text, page_head, page_name, page_text, quoted};
ghost use Rattle.sipl_archive.specs.Archive.{run_named, setting_line, transports_line, transports_text};

use crate::folder::{expect_none_but, expect_same, list};
use crate::runs::read_name;
use sha2::{Digest, Sha256};
use sipl_book::{Event, Extent, Page};
use sipl_choice::{Abilities, Families, Transport};
use sipl_lines::{write_event, write_number};
use sipl_outages::Held;
use std::alloc::{AllocError, Global};
use std::fs::{File, OpenOptions, TryLockError};
use std::io::{ErrorKind, Write};
use std::os::unix::fs::OpenOptionsExt;
use std::rt::Files;
use std::{fs, io};

// How many octets of a page are written at a time.
const PIECE_LEN: usize = 1 << 20;

// The greatest number of a run, one for each start of a daemon.
const MAX_RUN: u64 = 999_999;

/// The folder of the pages. This daemon's are those of one run, whose number is greater than those of all
/// pages that were in the folder.
#[derive(Drop)]
pub struct Archive {
    alloc: Global,
    // The folder, whose lock the daemon has.
    file: File,
    folder: String,
    run: u64,
    // The client and the policy of each page, as settings.
    client: Vec<u8>,
}

impl Archive {
    /// The archive in a folder, of a service for this client and policy: `ResourceBusy` where another process
    /// has it.
    pub fn open<R: Files<File = File>>(
        rt: &R,
        alloc: Global,
        folder: &str,
        abilities: &Abilities,
        held: Held,
    ) -> io::Result<Archive> {
        let file = File::open(rt, folder)?;
        match file.try_lock() {
            Ok(()) => {}
            Err(TryLockError::WouldBlock) => {
                return Err(io::Error::new(ErrorKind::ResourceBusy, "another siplocd has it"));
            }
            Err(TryLockError::Error(error)) => return Err(error),
        }
        let mut archive = Archive {
            alloc,
            file,
            folder: String::new(alloc),
            run: 0,
            client: Vec::new(alloc),
        };
        match archive.begin(rt, folder, abilities, held) {
            Ok(()) => Ok(archive),
            Err(error) => Err(error),
        }
    }

    // Begins a run in the folder.
    fn begin<R: Files<File = File>>(
        &mut self,
        rt: &R,
        folder: &str,
        abilities: &Abilities,
        held: Held,
    ) -> io::Result<()> {
        self.run = next_run(rt, self.alloc, folder)?;
        self.folder.push_str(folder)?;
        write_client(&mut self.client, abilities, held)?;
        Ok(())
    }

    /// Writes a page into its file, which exists complete or not at all. One without events has none. Where
    /// another folder has the path now, or another file the name of the page, it fails, and leaves these.
    pub fn keep<R: Files<File = File>>(&self, rt: &R, page: &Page) -> io::Result<()> {
        if page.events().is_empty() {
            return Ok(());
        }
        let to = page_path(self.alloc, self.folder.as_str(), self.run, page)?;
        let path = new_path(self.alloc, self.folder.as_str())?;
        expect_same(rt, &self.file, self.folder.as_str())?;
        let file = open_new(rt, path.as_str())?;
        match self.put(rt, file, path.as_str(), to.as_str(), page) {
            Ok(()) => self.file.sync_all(),
            Err(error) => {
                // What is left of it has the space that others need.
                let _ = fs::remove_file(rt, path.as_str());
                Err(error)
            }
        }
    }

    /// Removes the pages of this run, where its daemon does not go on: each start that is tried would leave
    /// as many. One that can't be removed stays.
    pub fn remove_run<R: Files<File = File>>(&self, rt: &R) {
        let mut names = Vec::new(self.alloc);
        if self.list_own(rt, &mut names).is_err() {
            return;
        }
        for name in &names {
            if run_of(name.as_str()) == self.run {
                let _ = self.remove(rt, name.as_str());
            }
        }
    }

    // Appends the names of what may be a page in the folder whose lock the daemon has.
    fn list_own<R: Files<File = File>>(&self, rt: &R, names: &mut Vec<String>) -> io::Result<()> {
        expect_same(rt, &self.file, self.folder.as_str())?;
        list(rt, self.alloc, self.folder.as_str(), names)
    }

    // Removes the file of a name.
    fn remove<R: Files<File = File>>(&self, rt: &R, name: &str) -> io::Result<()> {
        let folder = self.folder.as_str();
        let path = format!(in self.alloc; "{folder}/{name}")?;
        fs::remove_file(rt, path.as_str())
    }

    // Writes a page into a new file, which is at a path, and moves it to its place.
    fn put<R: Files<File = File>>(
        &self,
        rt: &R,
        file: File,
        path: &str,
        to: &str,
        page: &Page,
    ) -> io::Result<()> {
        self.write_file(file, page)?;
        expect_none_but(rt, self.alloc, to, path)?;
        fs::rename(rt, path, to)
    }

    // Writes a page into a new file, and closes it.
    fn write_file(&self, mut file: File, page: &Page) -> io::Result<()> {
        write_page(self.alloc, &mut file, &self.client, page)?;
        file.sync_all()
    }
}

// Opens the file of a page that is to be written.
fn open_new<R: Files<File = File>>(rt: &R, path: &str) -> io::Result<File> {
    OpenOptions::new()
        .write(true)
        .create(true)
        .truncate(true)
        .mode(0o600)
        .open(rt, path)
}

// Writes a page of a client, which is as settings.
fn write_page<W: Write>(alloc: Global, out: &mut W, client: &[u8], page: &Page) -> io::Result<()>
    ensures { OnOk result (Appends (W.contents out.old) (W.contents out.new)
        (file_text client.now page.now)) }
{
    let mut text = Vec::new(alloc);
    write_head(alloc, &mut text, page.extent(), client)?;
    write_events(alloc, out, &mut text, page.events())
}

// Writes the text of a page, of which the head is there, in pieces, and its digest. Nothing of it is left.
fn write_events<W: Write>(
    alloc: Global,
    out: &mut W,
    text: &mut Vec<u8>,
    events: &[Event],
) -> io::Result<()>
    ensures { OnOk result (Appends (W.contents out.old) (W.contents out.new)
        (page_text text.old.items events.now)) }
{
    let mut digest = Sha256::new();
    for event in events {
        write_event(alloc, text, event)?;
        if text.len() >= PIECE_LEN {
            write_piece(out, &mut digest, text)?;
        }
    }
    write_piece(out, &mut digest, text)?;
    out.write_all(&digest_line(alloc, &digest.finalize())?)
}

// Writes a piece of a page's text, and empties it.
fn write_piece<W: Write>(out: &mut W, digest: &mut Sha256, text: &mut Vec<u8>) -> io::Result<()>
    ensures { OnOk result (WritesPiece (W.contents out.old) (W.contents out.new)
        digest.old digest.new text.old.items text.new.items) }
{
    digest.update(text.as_slice());
    out.write_all(text)?;
    text.clear();
    Ok(())
}

// The number after the greatest of a run in a folder: the pages of early runs may have been taken away.
fn next_run<R: Files<File = File>>(rt: &R, alloc: Global, folder: &str) -> io::Result<u64> {
    let mut names = Vec::new(alloc);
    list(rt, alloc, folder, &mut names)?;
    let last = greatest_run(&names);
    if last < MAX_RUN {
        Ok(last + 1)
    } else {
        Err(io::Error::new(ErrorKind::QuotaExceeded, "no number is left for a run"))
    }
}

// The greatest run in names of files; 0 where none is that of a page.
fn greatest_run(names: &[String]) -> u64
    ensures { result ≡ greatest_run (map (λ name. string_bytes name) names.now) }
{
    let mut last = 0;
    for name in names {
        last = run_of(name.as_str()).max(last);
    }
    last
}

// The run in the name of a file; 0 where it is not that of a page.
fn run_of(name: &str) -> u64
    ensures { result ≡ run_named name.now }
{
    match read_name(name) {
        Some((run, _)) => run,
        None => 0,
    }
}

// The path of a page of a run.
fn page_path(alloc: Global, folder: &str, run: u64, page: &Page) -> Result<String, AllocError>
    ensures { IfOk result
        (λ path. string_bytes path ≡ folder.now ++ 47 ∷ page_name run page.now.first) }
{
    let first = page.first();
    format!(in alloc; "{folder}/{run:06}-{first:016}")
}

// The path of the page that is being written. What is there was cut off.
fn new_path(alloc: Global, folder: &str) -> Result<String, AllocError> {
    format!(in alloc; "{folder}/new")
}

/// The last line of a page: the SHA-256 of all lines before it.
pub(crate) fn digest_line(alloc: Global, digest: &[u8; 32]) -> Result<Vec<u8>, AllocError>
    ensures { IfOk result (λ line. line.items ≡ digest_line digest.now) }
{
    let digits = hex::encode(alloc, digest.as_slice())?;
    let mut line = Vec::new(alloc);
    line.extend_from_slice(b"sha256 ")?;
    line.extend_from_slice(digits.as_bytes())?;
    line.push(b'\n')?;
    Ok(line)
}

// Appends the first lines of a page: its extent, the client and the policy as settings, and an empty line.
fn write_head(
    alloc: Global,
    out: &mut Vec<u8>,
    extent: Extent,
    client: &[u8],
) -> Result<(), AllocError>
    ensures { OnOk result (out.new.items
        ≡ out.old.items ++ page_head extent.first extent.count client.now) }
{
    out.extend_from_slice(b"siplocd page")?;
    write_number(out, extent.first)?;
    write_number(out, extent.count)?;
    out.push(b'\n')?;
    out.extend_from_slice(client)?;
    out.push(b'\n')?;
    Ok(())
}

// Appends the client and the policy, as settings.
fn write_client(out: &mut Vec<u8>, abilities: &Abilities, held: Held) -> Result<(), AllocError>
    ensures { OnOk result (out.new.items ≡ out.old.items ++ client_text abilities.now held) }
{
    write_transports_line(out, abilities.preference())?;
    write_setting(out, b"families", families_name(abilities.families()))?;
    write_setting(out, b"held", held_name(held))?;
    Ok(())
}

// Appends a setting whose value is a name.
fn write_setting(out: &mut Vec<u8>, key: &[u8], name: &str) -> Result<(), AllocError>
    ensures { OnOk result (out.new.items ≡ out.old.items ++ setting_line key.now name.now) }
{
    out.extend_from_slice(key)?;
    write_quoted(out, b" = ", name)?;
    out.push(b'\n')?;
    Ok(())
}

// Appends the setting of a client's transports.
fn write_transports_line(out: &mut Vec<u8>, transports: &[Transport]) -> Result<(), AllocError>
    ensures { OnOk result (out.new.items ≡ out.old.items ++ transports_line transports.now) }
{
    out.extend_from_slice(b"transports = [")?;
    write_transports(out, transports)?;
    out.extend_from_slice(b"]\n")?;
    Ok(())
}

// Appends the names of transports, with a comma and a space between them.
fn write_transports(out: &mut Vec<u8>, transports: &[Transport]) -> Result<(), AllocError>
    ensures { OnOk result (out.new.items ≡ out.old.items ++ transports_text transports.now) }
{
    let Some((first, others)) = transports.split_first() else {
        return Ok(());
    };
    write_quoted(out, b"", first.name())?;
    for other in others {
        write_quoted(out, b", ", other.name())?;
    }
    Ok(())
}

// Appends a text, and a name in quotes.
fn write_quoted(out: &mut Vec<u8>, text: &[u8], name: &str) -> Result<(), AllocError>
    ensures { OnOk result (out.new.items ≡ out.old.items ++ text.now ++ quoted name.now) }
{
    out.extend_from_slice(text)?;
    out.push(b'"')?;
    out.extend_from_slice(name.as_bytes())?;
    out.push(b'"')?;
    Ok(())
}

// The name of families in the settings.
fn families_name(families: Families) -> &'static str
    ensures { result.now ≡ families_text families }
{
    match families {
        Families::V4 => "v4",
        Families::V6 => "v6",
        Families::V4ThenV6 => "v4v6",
        Families::V6ThenV4 => "v6v4",
    }
}

// The name of a policy on held endpoints in the settings.
fn held_name(held: Held) -> &'static str
    ensures { result.now ≡ held_text held }
{
    match held {
        Held::Out => "out",
        Held::Last => "last",
    }
}
