//! The files of a log, which are the catalogue.
ghost use Rattle.std.specs.Prelude.{◌≡◌, ◌∷◌, ◌++◌, [], IfErr, IfOk, IsTrue, Ok, OnOk};
ghost use Rattle.fx_base.specs.Catalogue.{FileEntry, IsCatalogue};
ghost use Rattle.fx_base.specs.Name.{is_name};
ghost use Rattle.fx_judge.specs.Arrays.{file_passed};
ghost use Rattle.fx_judge.specs.Reading.{MeansRefusal, ReadsOrFails, all_after, part_passed};

use crate::events::YachtFile;
use crate::unread::{LogRefusal, Unread};
use fx_base::{AddFault, Catalogue, is_name};
use std::alloc::Global;

/// Returns the items from `first` on, as many as `count`.
///
/// # Errors
/// `why` if there are fewer.
pub fn part<T>(items: &[T], first: u32, count: u32, why: LogRefusal) -> Result<&[T], Unread>
    ensures { ReadsOrFails (λ part. part.now) result (part_passed items.now first count why) }
{
    let (first, count) = (first as usize, count as usize);
    if first + count > items.len() {
        return Err(Unread::Refused(why));
    }
    let rest = &items[first..];
    Ok(&rest[..count])
}

// Returns a name as text.
#[tactic(auto, using(crate::proofs::ReadFiles::name_is_text, fx_language::proofs::FilesOfScripts::text_is_ok))]
fn text(name: &[u8]) -> &str
    requires { IsTrue (is_name name.now) }
    ensures { result.now ≡ name.now }
{
    std::str::from_utf8(name).unwrap()
}

// Adds a file to the catalogue of the files before it.
fn add(
    alloc: Global,
    catalogue: &mut Catalogue,
    file: &YachtFile,
    bytes: &[u8],
) -> Result<(), Unread>
    ensures added { OnOk result ((entry : FileEntry)
        × (file_passed bytes.now catalogue.old file.now ≡ Ok entry)
        × (catalogue.new ≡ catalogue.old ++ entry ∷ [])) }
    ensures refused { IfErr result (λ why. MeansRefusal why (file_passed bytes.now catalogue.old file.now)) }
    ensures catalogue { IsCatalogue catalogue.old → OnOk result (IsCatalogue catalogue.new) }
{
    let why = LogRefusal::BadFile(catalogue.len() as usize);
    let name = part(bytes, file.name, file.name_length, why)?;
    let content = part(bytes, file.first, file.count, why)?;
    if !is_name(name) {
        return Err(Unread::Refused(why));
    }
    let name = String::from_str(alloc, text(name))?;
    match catalogue.add(name, content.to_vec(alloc)?) {
        Ok(()) => Ok(()),
        Err(AddFault::NoMemory) => Err(Unread::NoMemory),
        Err(_) => Err(Unread::Refused(why)),
    }
}

/// Returns the catalogue of files, whose names and bytes are parts of `bytes`.
///
/// # Errors
/// `BadFile` of the first file that the catalogue of those before it refuses, or of which a part is
/// past `bytes`. `NoMemory` if an allocation fails.
pub fn catalogue_of(alloc: Global, files: &[YachtFile], bytes: &[u8]) -> Result<Catalogue, Unread>
    ensures read { ReadsOrFails (λ catalogue. catalogue) result (all_after (file_passed bytes.now) [] files.now) }
    ensures catalogue { IfOk result IsCatalogue }
{
    let mut catalogue = Catalogue::new(alloc);
    for file in files {
        add(alloc, &mut catalogue, file, bytes)?;
    }
    Ok(catalogue)
}
