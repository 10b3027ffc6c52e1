//! A piece of a path, looked up in a directory.
ghost use Rattle.std.specs.Prelude.{◌≡◌, ◌≢◌, ◌<◌, true, IfOk, IfErr, OnErr, IsErrOf};
ghost use Rattle.lfs_model.specs.Walk.{dot, dot_dot};
ghost use Rattle.lfs_files.specs.Files.{Reads};
ghost use Rattle.lfs_path.specs.Seeing.{EndsAtPiece, HasHeader, HasObject, IsSeen, NamesObject};
ghost use Rattle.lfs_path.specs.Telling.{Tells, TellsFault, TellsRefusal, WalksOnly};
ghost use Rattle.lfs_path.specs.Trees.{InDirectory};

use crate::walk_fault::WalkFault;
use lfs_dirs::{find, longest_name};
use lfs_files::{Files, Header, LogFault};
use lfs_model::{FileNumber, Kind};

/// A symbolic link.
#[derive(Clone, Copy)]
pub struct Link {
    pub number: FileNumber,
    pub header: Header,
}

/// What a piece of a path is, in the directory where it stands.
#[derive(Clone, Copy)]
pub enum Seen {
    /// Dot.
    Here,
    /// Dot-dot.
    Above,
    /// A name of a directory.
    Directory(FileNumber),
    /// A name of a file.
    File(FileNumber),
    /// A name of a symbolic link.
    Symbolic(Link),
}

/// What a piece of a path is in a directory.
///
/// # Errors
///
/// `NameTooLong`, or `NoEntry` where the directory doesn't have the name. `Log` where the log gives
/// no answer.
pub fn step<F: Files>(files: &mut F, directory: FileNumber, piece: &[u8]) -> Result<Seen, WalkFault>
    ensures walks { WalksOnly (F.state files.old) (F.state files.new) result }
    ensures answer { IfOk result (λ seen. Tells (F.state files.old) (F.state files.new)
        (InDirectory directory.value) (IsSeen directory.value piece.now seen)) }
    ensures refused { IfErr result (TellsRefusal (F.state files.old) (F.state files.new)
        (InDirectory directory.value) (EndsAtPiece directory.value piece.now)) }
{
    if piece == b".".as_slice() {
        return Ok(Seen::Here);
    }
    if piece == b"..".as_slice() {
        return Ok(Seen::Above);
    }
    let number = entry_in(files, directory, piece)?;
    let header = match header_of(files, number) {
        Ok(header) => header,
        Err(fault) => return Err(WalkFault::Log(fault)),
    };
    match header.kind {
        Kind::File => Ok(Seen::File(number)),
        Kind::Directory => Ok(Seen::Directory(number)),
        Kind::Link => Ok(Seen::Symbolic(Link { number, header })),
    }
}

/// What the inode of an object says of it.
///
/// # Errors
///
/// As those of `Files::header`; `Device` also where no object has the number.
pub fn header_of<F: Files>(files: &mut F, number: FileNumber) -> Result<Header, LogFault>
    ensures reads { Reads (F.state files.old) (F.state files.new) }
    ensures answer { IfOk result (λ header. Tells (F.state files.old) (F.state files.new)
        (λ m. Unit {0}) (HasHeader number.value header)) }
    ensures failed { OnErr result (TellsFault (F.state files.old) (F.state files.new)
        (HasObject number.value)) }
    ensures halted { IsErrOf result LogFault.Halted → (F.state files.old).halted ≡ true }
    ensures other { IsErrOf result LogFault.Full → ⊥ }
{
    match files.header(number) {
        Ok(Some(header)) => Ok(header),
        Ok(None) => Err(LogFault::Device),
        Err(fault) => Err(fault),
    }
}

/// The object that a name gives in a directory.
fn entry_in<F: Files>(
    files: &mut F,
    directory: FileNumber,
    name: &[u8],
) -> Result<FileNumber, WalkFault>
    requires dots { (name.now ≢ dot) × (name.now ≢ dot_dot) }
    ensures walks { WalksOnly (F.state files.old) (F.state files.new) result }
    ensures answer { IfOk result (λ n. Tells (F.state files.old) (F.state files.new)
        (InDirectory directory.value) (NamesObject directory.value name.now n.value)) }
    ensures refused { IfErr result (TellsRefusal (F.state files.old) (F.state files.new)
        (InDirectory directory.value) (EndsAtPiece directory.value name.now)) }
{
    let header = match header_of(files, directory) {
        Ok(header) => header,
        Err(fault) => return Err(WalkFault::Log(fault)),
    };
    let longest = longest_name(header.form);
    if name.len() > longest {
        return Err(WalkFault::NameTooLong);
    }
    match find(files, directory, header, name) {
        Ok(Some(found)) => Ok(found.number),
        Ok(None) => Err(WalkFault::NoEntry),
        Err(fault) => Err(WalkFault::Log(fault)),
    }
}
