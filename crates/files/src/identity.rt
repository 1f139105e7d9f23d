// Which file it is, of what kind, and whose. Device and inode number tell a file from every other, whatever names lead to it.
ghost use Rattle.std.specs.Prelude.{◌≡◌};
ghost use Rattle.files.specs.Identities.{is_regular, same_file};

use crate::loading::Source;
use crate::paths;
use std::fs::{File, Metadata};
use std::os::unix::fs::MetadataExt;
use std::{fs, io};

#[derive(Clone, Copy)]
pub struct Identity {
    pub device: u64,
    pub inode: u64,
    pub mode: u32,
    pub owner: u32,
    pub group: u32,
}

impl From<&Metadata> for Identity {
    fn from(of: &Metadata) -> Identity {
        Identity {
            device: of.dev(),
            inode: of.ino(),
            mode: of.mode(),
            owner: of.uid(),
            group: of.gid(),
        }
    }
}

fn of_file(file: &File) -> io::Result<Identity> {
    Ok(Identity::from(&file.metadata()?))
}

fn of_path(rt: &HostRuntime, path: &str) -> io::Result<Identity> {
    Ok(Identity::from(&fs::metadata(rt, path)?))
}

// The file that is open for reading. A standard one is found by the name that leads to it.
pub fn of_open(rt: &HostRuntime, source: &Source) -> Option<Identity> {
    match source {
        Source::Standard => of_path(rt, "/dev/stdin").ok(),
        Source::Named(file) => of_file(file).ok(),
    }
}

// The file that standard output is open on.
pub fn of_output(rt: &HostRuntime) -> Option<Identity> {
    of_path(rt, "/dev/stdout").ok()
}

// The file that a name leads to, at the end of its links.
pub fn of_name(rt: &HostRuntime, name: &[u8]) -> io::Result<Identity> {
    of_path(rt, paths::text(name)?)
}

pub fn is_regular(of: Identity) -> bool
    ensures { result ≡ is_regular of }
{
    of.mode / 4096 % 16 == 8
}

// Whether two are one file, which a file that is not known is with none.
pub fn is_same(a: Option<Identity>, b: Option<Identity>) -> bool
    ensures { result ≡ same_file a b }
{
    let (Some(a), Some(b)) = (a, b) else {
        return false;
    };
    a.device == b.device && a.inode == b.inode
}
