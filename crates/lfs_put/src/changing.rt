//! Changes that are saved at once: each is a call, and then one sync where the call was done.
ghost use Rattle.std.specs.Prelude.{[], ◌∷◌};
ghost use Rattle.lfs_model.specs.Call.{Clean, Done, Mkdir, Rename, Sync, Upgrade};
ghost use Rattle.lfs_fs.specs.Seen.{answer_by, seen};
ghost use Rattle.lfs_fs.specs.Volume.{Serves};
ghost use Rattle.lfs_put.specs.Changing.{CleansSome, MakesInOrder, MakesPasses, Removes, SavesBehind, TakesAway, removal};

use lfs_device::SectorDevice;
use lfs_fs::{Fs, FsError};
use lfs_model::Kind;

// Saves what a call changed, where it was done.
fn save<D: SectorDevice>(fs: &mut Fs<D>, done: Result<(), FsError>) -> Result<(), FsError>
    ensures { SavesBehind D.SectorDevice.state (seen fs.old) (seen fs.new) done result }
{
    match done {
        Ok(()) => fs.sync(),
        Err(fault) => Err(fault),
    }
}

// Takes away what stands at a path, which is of this kind.
fn take_away<D: SectorDevice>(fs: &mut Fs<D>, kind: Kind, path: &[u8]) -> Result<(), FsError>
    ensures { Serves D.SectorDevice.state (seen fs.old) (seen fs.new)
        (removal kind path.now)
        (answer_by (λ done. Done) result) }
{
    match kind {
        Kind::Directory => fs.rmdir(path),
        Kind::File => fs.unlink(path),
        Kind::Link => fs.unlink(path),
    }
}

// Takes away what stands at a path, which is of this kind, and saves that.
fn remove_kind<D: SectorDevice>(fs: &mut Fs<D>, kind: Kind, path: &[u8]) -> Result<(), FsError>
    ensures { MakesInOrder D.SectorDevice.state (seen fs.old) (seen fs.new)
        (removal kind path.now ∷ Sync ∷ []) result }
{
    let removed = take_away(fs, kind, path);
    save(fs, removed)
}

/// Takes away the file, the link or the empty directory of a path, and saves that. A link that ends
/// the path is taken away itself.
///
/// # Errors
///
/// Those of `lstat`; of a directory those of `rmdir`, else those of `unlink`; those of `sync`.
pub fn remove<D: SectorDevice>(fs: &mut Fs<D>, path: &[u8]) -> Result<(), FsError>
    ensures { Removes D.SectorDevice.state (seen fs.old) (seen fs.new) path.now result }
{
    match fs.lstat(path) {
        Ok(stat) => remove_kind(fs, stat.kind, path),
        Err(fault) => Err(fault),
    }
}

/// Takes away the file, the link or the empty directory of a path, as `remove`, and saves nothing.
///
/// # Errors
///
/// Those of `lstat`; of a directory those of `rmdir`, else those of `unlink`.
pub fn remove_unsaved<D: SectorDevice>(fs: &mut Fs<D>, path: &[u8]) -> Result<(), FsError>
    ensures { TakesAway D.SectorDevice.state (seen fs.old) (seen fs.new) path.now result }
{
    match fs.lstat(path) {
        Ok(stat) => take_away(fs, stat.kind, path),
        Err(fault) => Err(fault),
    }
}

/// Gives what stands at a path another one, and saves that.
///
/// # Errors
///
/// Those of `rename` and of `sync`.
pub fn rename<D: SectorDevice>(fs: &mut Fs<D>, from: &[u8], to: &[u8]) -> Result<(), FsError>
    ensures { MakesInOrder D.SectorDevice.state (seen fs.old) (seen fs.new)
        (Rename from.now to.now ∷ Sync ∷ []) result }
{
    let renamed = fs.rename(from, to);
    save(fs, renamed)
}

/// Makes an empty directory, and saves that.
///
/// # Errors
///
/// Those of `mkdir` and of `sync`.
pub fn make_directory<D: SectorDevice>(fs: &mut Fs<D>, path: &[u8]) -> Result<(), FsError>
    ensures { MakesInOrder D.SectorDevice.state (seen fs.old) (seen fs.new)
        (Mkdir path.now ∷ Sync ∷ []) result }
{
    let made = fs.mkdir(path);
    save(fs, made)
}

/// Cleans segments until a quarter of them is clean, and syncs.
///
/// # Errors
///
/// Those of `clean` and of `sync`.
pub fn clean<D: SectorDevice>(fs: &mut Fs<D>) -> Result<(), FsError>
    ensures { MakesInOrder D.SectorDevice.state (seen fs.old) (seen fs.new)
        (Clean ∷ Sync ∷ []) result }
{
    let cleaned = fs.clean();
    save(fs, cleaned)
}

// Makes passes of the cleaner, so many at most, while fewer than a quarter of the segments is clean.
fn make_passes<D: SectorDevice>(fs: &mut Fs<D>, most: u32) -> Result<(), FsError>
    ensures { MakesPasses D.SectorDevice.state (seen fs.old) (seen fs.new) most result }
{
    for _ in 0..most {
        if !fs.is_cleaning_due() {
            return Ok(());
        }
        fs.clean_once()?;
    }
    Ok(())
}

/// Makes so many passes of the cleaner at most, while fewer than a quarter of the segments is clean,
/// and syncs.
///
/// # Errors
///
/// Those of `clean_once` and of `sync`.
pub fn clean_some<D: SectorDevice>(fs: &mut Fs<D>, most: u32) -> Result<(), FsError>
    ensures { CleansSome D.SectorDevice.state (seen fs.old) (seen fs.new) most result }
{
    let cleaned = make_passes(fs, most);
    save(fs, cleaned)
}

/// Makes the version of the volume's layout 2, and saves that.
///
/// # Errors
///
/// Those of `upgrade` and of `sync`.
pub fn upgrade<D: SectorDevice>(fs: &mut Fs<D>) -> Result<(), FsError>
    ensures { MakesInOrder D.SectorDevice.state (seen fs.old) (seen fs.new)
        (Upgrade ∷ Sync ∷ []) result }
{
    let upgraded = fs.upgrade();
    save(fs, upgraded)
}
