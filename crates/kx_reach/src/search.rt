//! The walk over includes that finds files.
use crate::folder::Folder;
use crate::handing::hand_in;
use crate::kinds::full_name;
use crate::walk::MOST_PARTS;
use kx_include::{Files, Part, include_parts};
use kx_lex::Name;
use kx_parse::{Item, Kind, Outline, Section, outline_source};
use std::alloc::{AllocError, Global};
use std::io;
use std::rt::Files as FileSystem;

/// A file that an include reached.
#[derive(Drop)]
pub struct Found {
    /// The name under which it is handed in, with the folder of its kind before it.
    pub name: String,
    /// Its path below the folder in which it was found.
    pub path: String,
    /// Whether that folder holds what is installed, and not what an author writes.
    pub is_installed: bool,
}

/// Why no files are found.
#[derive(Drop)]
pub enum FindFault {
    /// The file at this path is there and can't be read.
    File(String),
    Memory,
}

impl From<AllocError> for FindFault {
    fn from(_: AllocError) -> Self {
        FindFault::Memory
    }
}

/// A map that an include names.
#[derive(Drop)]
struct Wanted {
    kind: Kind,
    file: Vec<u8>,
    map: Option<Vec<u8>>,
}

/// Where a map stands: the number of its text, 0 for the source, and its place there.
#[derive(Clone, Copy)]
struct Place {
    text: usize,
    map: usize,
}

/// The source's outline, the files, and to which of their maps an include led before.
#[derive(Drop)]
struct Search {
    /// None where the source has no tree.
    source: Option<Outline>,
    /// Those handed in, and after them those that were found.
    files: Files,
    /// How many files were handed in.
    handed: usize,
    /// Of each text which of its sections an include led to.
    met: Vec<Vec<bool>>,
    found: Vec<Found>,
    /// So many paths of the file that is looked for were looked at in vain.
    tried: usize,
}

fn wanted_by(alloc: Global, kind: Kind, part: &Part) -> Result<Wanted, AllocError> {
    let map = match part.map() {
        Some(map) => Some(Vec::from_slice(alloc, map)?),
        None => None,
    };
    Ok(Wanted {
        kind,
        file: Vec::from_slice(alloc, part.file())?,
        map,
    })
}

/// The text of an include.
fn include_of(item: &Item) -> Option<&Name> {
    match item {
        Item::Include { text, .. } => Some(text),
        Item::Statement(_) => None,
    }
}

/// The maps that the includes in a section name, as far as parts are left to look up.
fn wanted_in(
    alloc: Global,
    section: &Section,
    left: &mut usize,
) -> Result<Vec<Wanted>, AllocError> {
    let mut all = Vec::new(alloc);
    for text in section.items.as_slice().iter().filter_map(include_of) {
        let Some(parts) = include_parts(alloc, text.bytes.as_slice())? else {
            continue;
        };
        for part in parts.as_slice() {
            let Some(rest) = (*left).checked_sub(1) else {
                break;
            };
            *left = rest;
            all.push(wanted_by(alloc, section.kind, part)?)?;
        }
    }
    Ok(all)
}

fn sections_of(outline: Option<&Outline>) -> &[Section] {
    match outline {
        Some(outline) => outline.sections.as_slice(),
        None => &[],
    }
}

impl Search {
    /// Over a source and the files that are handed in with it.
    fn of(alloc: Global, source: &[u8], files: Files) -> Result<Search, AllocError> {
        let source = outline_source(alloc, source)?;
        let mut search = Search {
            source,
            handed: files.len(),
            files,
            met: Vec::new(alloc),
            found: Vec::new(alloc),
            tried: 0,
        };
        for text in 0..search.handed.saturating_add(1) {
            search.add_unmet(alloc, text)?;
        }
        Ok(search)
    }

    /// The sections of the text of a number; none where it has no tree.
    fn sections(&self, text: usize) -> &[Section] {
        match text.checked_sub(1) {
            None => sections_of(self.source.as_ref()),
            Some(place) => sections_of(self.files.text_at(place).and_then(|file| file.outline())),
        }
    }

    /// Adds a text, of whose sections an include led to none.
    fn add_unmet(&mut self, alloc: Global, text: usize) -> Result<(), AllocError> {
        let count = self.sections(text).len();
        self.met.push(vec![in alloc; false; count]?)?;
        Ok(())
    }

    /// The number of the file that a name means among those that are known.
    fn known(&self, full: &[u8], name: &[u8]) -> Option<usize> {
        let found = self.files.place_of(full);
        let bare = self.files.place_of(name);
        let place = found.or(bare.filter(|place| *place < self.handed))?;
        Some(place.saturating_add(1))
    }

    fn section_at(&self, place: Place) -> Option<&Section> {
        self.sections(place.text).get(place.map)
    }

    /// The place in a file of the map that is wanted.
    fn place_in(&self, text: usize, wanted: &Wanted) -> Option<Place> {
        let name = match &wanted.map {
            Some(name) => Some(name.as_slice()),
            None => None,
        };
        let file = self.files.text_at(text.checked_sub(1)?)?;
        let map = file.map_of(wanted.kind, name)?;
        Some(Place { text, map })
    }

    /// Whether an include leads to a place for the first time.
    fn meet(&mut self, place: Place) -> bool {
        let Some(flags) = self.met.get_mut(place.text) else {
            return false;
        };
        match flags.get_mut(place.map) {
            Some(flag) => {
                let is_first = !*flag;
                *flag = true;
                is_first
            }
            None => false,
        }
    }

    /// Adds a file that was found; answers its number.
    fn add(&mut self, alloc: Global, file: Found, bytes: Vec<u8>) -> Result<usize, AllocError> {
        hand_in(&mut self.files, file.name.as_str(), bytes)?;
        let number = self.met.len();
        self.add_unmet(alloc, number)?;
        self.found.push(file)?;
        Ok(number)
    }
}

/// The file of a name in a folder.
fn found_in(
    rt: &(impl FileSystem + AllocGlobal),
    folder: &Folder,
    name: &str,
) -> Result<Option<Vec<u8>>, FindFault> {
    match folder.read(rt, name) {
        Ok(bytes) => Ok(bytes),
        Err(fault) if fault.kind() == io::ErrorKind::OutOfMemory => Err(FindFault::Memory),
        Err(_) => Err(FindFault::File(folder.path_of(name)?)),
    }
}

/// The path at a place among those that a name may have: in each folder below the one of the kind, then without it.
fn path_at<'a>(
    folders: &'a [Folder],
    full: &'a str,
    name: &'a str,
    place: usize,
) -> Option<(&'a Folder, &'a str)> {
    let folder = folders.get(place / 2)?;
    match place % 2 {
        0 => Some((folder, full)),
        _ => Some((folder, name)),
    }
}

/// The first file among folders that a name means for a kind. What was tried before isn't tried again.
fn find(
    rt: &(impl FileSystem + AllocGlobal),
    folders: &[Folder],
    full: &str,
    name: &str,
    tried: &mut usize,
) -> Result<Option<(Found, Vec<u8>)>, FindFault> {
    for _ in *tried..folders.len().saturating_mul(2) {
        let Some((folder, path)) = path_at(folders, full, name, *tried) else {
            break;
        };
        if let Some(bytes) = found_in(rt, folder, path)? {
            let found = Found {
                name: String::from_str(rt.alloc(), full)?,
                path: String::from_str(rt.alloc(), path)?,
                is_installed: folder.is_installed(),
            };
            return Ok(Some((found, bytes)));
        }
        *tried = tried.saturating_add(1);
    }
    Ok(None)
}

/// The number of the file that an include names, which is looked for where it isn't known.
fn reach(
    rt: &(impl FileSystem + AllocGlobal),
    folders: &[Folder],
    search: &mut Search,
    wanted: &Wanted,
) -> Result<Option<usize>, FindFault> {
    let name = wanted.file.as_slice();
    let full = full_name(rt.alloc(), wanted.kind, name)?;
    if let Some(number) = search.known(full.as_slice(), name) {
        return Ok(Some(number));
    }
    let (Ok(full_text), Ok(text)) = (str::from_utf8(full.as_slice()), str::from_utf8(name)) else {
        return Ok(None);
    };
    let found = find(rt, folders, full_text, text, &mut search.tried)?;
    search.tried = 0;
    match found {
        Some((file, bytes)) => Ok(Some(search.add(rt.alloc(), file, bytes)?)),
        None => Ok(None),
    }
}

/// The place of the map that an include names.
fn place_of(
    rt: &(impl FileSystem + AllocGlobal),
    folders: &[Folder],
    search: &mut Search,
    wanted: &Wanted,
) -> Result<Option<Place>, FindFault> {
    match reach(rt, folders, search, wanted)? {
        Some(text) => Ok(search.place_in(text, wanted)),
        None => Ok(None),
    }
}

/// The sections of a source, of which the first is the last to wait.
fn own_places(alloc: Global, search: &Search) -> Result<Vec<Place>, AllocError> {
    let mut own = Vec::new(alloc);
    for map in (0..search.sections(0).len()).rev() {
        own.push(Place { text: 0, map })?;
    }
    Ok(own)
}

/// Lets a place wait to which no include led before.
fn meet(search: &mut Search, waiting: &mut Vec<Place>, place: Place) -> Result<(), AllocError> {
    if search.meet(place) {
        waiting.push(place)?;
    }
    Ok(())
}

/// What the includes at a place name.
fn wanted_at(
    alloc: Global,
    search: &Search,
    place: Place,
    left: &mut usize,
) -> Result<Vec<Wanted>, AllocError> {
    match search.section_at(place) {
        Some(section) => wanted_in(alloc, section, left),
        None => Ok(Vec::new(alloc)),
    }
}

/// The walk over the includes of a source that finds files. Where a file can't be read it stays as it was, and may go on.
#[derive(Drop)]
pub struct Finding {
    search: Search,
    waiting: Vec<Place>,
    /// How many parts of includes are left to look up.
    left: usize,
    /// The maps that the includes of one map name, and the next of them.
    wanted: Vec<Wanted>,
    next: usize,
    misses: bool,
}

impl Finding {
    /// The walk over a source and the files that are handed in with it.
    ///
    /// # Errors
    /// Where a growth is refused.
    pub fn of(alloc: Global, source: &[u8], files: Files) -> Result<Finding, AllocError> {
        let search = Search::of(alloc, source, files)?;
        let waiting = own_places(alloc, &search)?;
        Ok(Finding {
            search,
            waiting,
            left: MOST_PARTS,
            wanted: Vec::new(alloc),
            next: 0,
            misses: false,
        })
    }

    /// Finds the maps that are still wanted.
    fn find_wanted(
        &mut self,
        rt: &(impl FileSystem + AllocGlobal),
        folders: &[Folder],
    ) -> Result<(), FindFault> {
        for _ in self.next..self.wanted.len() {
            let Some(wanted) = self.wanted.get(self.next) else {
                break;
            };
            match place_of(rt, folders, &mut self.search, wanted)? {
                Some(place) => meet(&mut self.search, &mut self.waiting, place)?,
                None => self.misses = true,
            }
            self.next = self.next.saturating_add(1);
        }
        Ok(())
    }

    /// Goes on to the end.
    ///
    /// # Errors
    /// Where a file can't be read, or no memory is left.
    pub fn go_on(
        &mut self,
        rt: &(impl FileSystem + AllocGlobal),
        folders: &[Folder],
    ) -> Result<(), FindFault> {
        for _ in 0..self.waiting.len().saturating_add(MOST_PARTS) {
            self.find_wanted(rt, folders)?;
            let Some(next) = self.waiting.pop() else {
                break;
            };
            self.wanted = wanted_at(rt.alloc(), &self.search, next, &mut self.left)?;
            self.next = 0;
        }
        self.find_wanted(rt, folders)
    }

    /// Whether an include named a file or a map that isn't there.
    pub fn misses(&self) -> bool {
        self.misses
    }

    /// The files: those that were handed in, and after them those that were found; and what is known of these.
    pub fn found(self) -> (Files, Vec<Found>) {
        let search = self.search;
        (search.files, search.found)
    }
}

/// Adds to the files that are handed in with a source those that its includes reach, in the order in which they are found, and
/// answers what is known of these.
///
/// # Errors
/// Where one can't be read, or no memory is left.
pub fn find_files(
    rt: &(impl FileSystem + AllocGlobal),
    folders: &[Folder],
    source: &[u8],
    files: Files,
) -> Result<(Files, Vec<Found>), FindFault> {
    let mut finding = Finding::of(rt.alloc(), source, files)?;
    finding.go_on(rt, folders)?;
    Ok(finding.found())
}
