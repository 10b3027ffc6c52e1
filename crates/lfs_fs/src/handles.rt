//! The open handles.
ghost use Rattle.std.specs.Prelude.{◌≡◌, ◌≢◌, ◌<◌, ◌≤◌, [], IfSome, IfNone, IsFalse, IsTrue, None, OnSome, Some};
ghost use Rattle.std.specs.Ordering.{nat_cmp};
ghost use Rattle.std.specs.FinMap.{find, put};
ghost use Rattle.lfs_model.specs.declared.limits.TheConstants.{MOST_HANDLES};
ghost use Rattle.lfs_model.specs.Tree.{least_handle, opened, without};
ghost use Rattle.lfs_fs.specs.Handles.{HasNumber, number_in};

use arrayvec::ArrayVec;
use lfs_model::FileNumber;
use lfs_model::limits::MOST_HANDLES;
use std::marker::Model;

/// The places of the table.
const PLACES: usize = MOST_HANDLES as usize;

/// Handles 0 to 63, each with its file. Contracts see those that are open, each with its number.
#[derive(Drop)]
pub struct Handles {
    files: ArrayVec<Option<FileNumber>, PLACES>,
}

impl Model for Handles {
    ghost use Rattle.std.specs.Prelude.{◌≡◌};
    ghost use Rattle.arrayvec.specs.ArrayVec.{array_vec_len};
    ghost use Rattle.lfs_model.specs.declared.limits.TheConstants.{MOST_HANDLES};
    ghost use Rattle.lfs_model.specs.Tree as tree;
    ghost use Rattle.lfs_fs.specs.Handles.{handles_of};

    ghost Value = { tree.Handles };

    ghost view = { λ h. handles_of h.files.items };

    ghost invariant = { λ h. array_vec_len h.files ≡ MOST_HANDLES };
}

impl Handles {
    /// No handle is open.
    pub fn new() -> Handles
        ensures { result ≡ [] }
    {
        let mut files = ArrayVec::new();
        for _ in 0..PLACES {
            files.push(None);
        }
        Handles { files }
    }

    /// The file of a handle, if it is open.
    pub fn get(&self, handle: u32) -> Option<FileNumber>
        ensures within { OnSome result (handle < MOST_HANDLES) }
        ensures file { number_in result ≡ find nat_cmp handle self.now }
    {
        let Some(file) = self.files.get(handle as usize) else {
            return None;
        };
        *file
    }

    /// The least handle that is free.
    pub fn least_free(&self) -> Option<u32>
        ensures within { IfSome result (λ handle. handle < MOST_HANDLES) }
        ensures first { IfSome result (λ handle. least_handle self.now ≡ handle) }
        ensures full { IfNone result (MOST_HANDLES ≤ least_handle self.now) }
    {
        for handle in 0..MOST_HANDLES {
            if self.files[handle as usize].is_none() {
                return Some(handle);
            }
        }
        None
    }

    /// Opens a handle on a file.
    pub fn open(&mut self, handle: u32, file: FileNumber)
        requires { handle < MOST_HANDLES }
        ensures { self.new ≡ put nat_cmp handle file.value self.old }
    {
        self.files[handle as usize] = Some(file);
    }

    /// Closes a handle.
    pub fn close(&mut self, handle: u32)
        requires { handle < MOST_HANDLES }
        ensures { self.new ≡ without nat_cmp handle self.old }
    {
        self.files[handle as usize] = None;
    }

    /// Whether another handle than this one is open on a file.
    pub fn is_shared(&self, handle: u32, file: FileNumber) -> bool
        ensures shared { IsTrue result → opened (without nat_cmp handle self.now) file.value ≢ 0 }
        ensures single { IsFalse result → opened (without nat_cmp handle self.now) file.value ≡ 0 }
    {
        for other in 0..MOST_HANDLES {
            if other != handle && is_file(self.files[other as usize], file) {
                return true;
            }
        }
        false
    }

    /// Whether a handle is open on a file.
    pub fn gives(&self, file: FileNumber) -> bool
        ensures open { IsTrue result → opened self.now file.value ≢ 0 }
        ensures shut { IsFalse result → opened self.now file.value ≡ 0 }
    {
        for handle in 0..MOST_HANDLES {
            if is_file(self.files[handle as usize], file) {
                return true;
            }
        }
        false
    }
}

/// Whether a place has this file.
fn is_file(place: Option<FileNumber>, file: FileNumber) -> bool
    ensures yes { IsTrue result → HasNumber place file.value }
    ensures no { IsFalse result → HasNumber place file.value → ⊥ }
{
    match place {
        Some(found) => found.value == file.value,
        None => false,
    }
}
