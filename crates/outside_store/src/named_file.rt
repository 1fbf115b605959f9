// A place for a file, with room for its name and its bytes.
ghost use Rattle.std.specs.Prelude.{◌≡◌, ℕ, ◌≤◌, length, Some, None, IfOk, MatchOption};
ghost use Rattle.std.specs.List.{position};
ghost use Rattle.std.specs.Str.{bytes_eq};
ghost use Rattle.outside_store.specs.Memory.{find};
ghost use Rattle.outside_store.specs.Places.{IsRoomy, shown, shown_all};

use crate::bounded_bytes::BoundedBytes;
use std::alloc::{AllocError, Global};

#[derive(Drop)]
pub(crate) struct NamedFile {
    name: BoundedBytes,
    bytes: BoundedBytes,
}

impl NamedFile {
    /// A place that holds nothing yet.
    pub(crate) fn new(
        alloc: Global,
        name_room: usize,
        byte_room: usize,
    ) -> Result<NamedFile, AllocError>
        ensures { IfOk result (IsRoomy name_room byte_room) }
    {
        let name = BoundedBytes::new(alloc, name_room)?;
        let bytes = BoundedBytes::new(alloc, byte_room)?;
        Ok(NamedFile { name, bytes })
    }

    /// Gives the place to a name and its bytes.
    pub(crate) fn take_over(&mut self, name: &[u8], bytes: &[u8])
        requires name { length name.now ≤ self.old.name.room }
        requires bytes { length bytes.now ≤ self.old.bytes.room }
        ensures shown { shown self.new ≡ (name.now, bytes.now) }
        ensures roomy { (n b : ℕ) → IsRoomy n b self.old → IsRoomy n b self.new }
    {
        self.name.replace(name);
        self.replace(bytes);
    }

    /// Replaces the bytes of the file.
    pub(crate) fn replace(&mut self, bytes: &[u8])
        requires { length bytes.now ≤ self.old.bytes.room }
        ensures shown { shown self.new ≡ (self.old.name.bytes, bytes.now) }
        ensures roomy { (n b : ℕ) → IsRoomy n b self.old → IsRoomy n b self.new }
    {
        self.bytes.replace(bytes);
    }
}

/// The place of the first file of a name.
pub(crate) fn place_of(files: &[NamedFile], name: &[u8]) -> Option<usize>
    ensures { result ≡ position (λ file. bytes_eq file.name.bytes name.now) files.now }
{
    files.iter().position(|file| file.name.as_slice() == name)
}

/// The bytes of a name.
pub(crate) fn bytes_of<'a>(files: &'a [NamedFile], name: &[u8]) -> Option<&'a [u8]>
    ensures { let there = find (shown_all files.now) name.now in
        MatchOption result (there ≡ None) (λ bytes. there ≡ Some bytes.now) }
{
    for file in files {
        if file.name.as_slice() == name {
            return Some(file.bytes.as_slice());
        }
    }
    None
}
