//! Whose files and folders a run trusts: those of its user and those of root. The kit does not specify what the system says about
//! owners and about device and inode numbers, so the clauses are only about modes, kinds and lengths.
ghost use Rattle.std.specs.Prelude.{◌≡◌, true, bit_and, OnOk, OnErr, IfErr};
ghost use Rattle.std.specs.IoError.{error_kind};
ghost use Rattle.std.specs.Bool.{OnFalse, OnTrue};
ghost use Rattle.std.specs.Fs.{metadata_len, metadata_mode, file_type, IsFile};
ghost use Rattle.book_file.specs.declared.trust.TheConstants.{OTHERS_WRITE};

use std::fs::Metadata;
use std::io;
use std::io::ErrorKind;
use std::os::unix::fs::MetadataExt;

/// The user id of root.
const ROOT: u32 = 0;

/// The bits of a folder's mode that let its group, or everyone, change its entries. If the folder has an access list, the group's
/// bits cover all that the list allows.
const OTHERS_WRITE: u32 = 0o022;

/// Whether this belongs to the user of this run, or to root.
pub(crate) fn has_trusted_owner(found: &Metadata) -> bool {
    found.uid() == libc::geteuid() || found.uid() == ROOT
}

/// Whether anyone but the user of this run and root may change the entries of this folder.
pub(crate) fn is_shared(folder: &Metadata) -> bool
    ensures { OnFalse result (bit_and (metadata_mode folder.now) OTHERS_WRITE ≡ 0) }
{
    !has_trusted_owner(folder) || folder.mode() & OTHERS_WRITE != 0
}

/// Whether the user of this run can give another file the owner of this one.
pub(crate) fn can_give_owner(found: &Metadata) -> bool {
    let runner = libc::geteuid();
    runner == found.uid() || runner == ROOT
}

/// Checks that this is a plain file and, in a shared folder, that it does not belong to others. Errors: InvalidInput if not.
pub(crate) fn check(found: &Metadata, is_shared: bool) -> io::Result<()>
    ensures plain { OnOk result (IsFile (file_type found.now)) }
    ensures others { IsFile (file_type found.now) → OnErr result (is_shared ≡ true) }
    ensures kind { IfErr result (λ error. error_kind error ≡ ErrorKind.InvalidInput) }
{
    if found.is_file() && (!is_shared || has_trusted_owner(found)) {
        Ok(())
    } else {
        Err(io::Error::from(ErrorKind::InvalidInput))
    }
}

/// Whether both are the metadata of one file, whatever its names.
pub fn is_same_file(one: &Metadata, other: &Metadata) -> bool {
    one.dev() == other.dev() && one.ino() == other.ino()
}

/// Whether both are the metadata of one file that has not changed in between, neither its bytes nor its names, owner or mode, as far
/// as its length and the time of its last change show.
pub(crate) fn are_unchanged(one: &Metadata, other: &Metadata) -> bool
    ensures { OnTrue result (metadata_len one.now ≡ metadata_len other.now) }
{
    is_same_file(one, other)
        && one.len() == other.len()
        && one.ctime() == other.ctime()
        && one.ctime_nsec() == other.ctime_nsec()
}
