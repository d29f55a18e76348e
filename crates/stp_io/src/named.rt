//! Files in memory by name.

ghost use Rattle.std.specs.Prelude.{◌≡◌, List, [], Some, option_copied, IfOk, OnOk, OnErr, bytes_eq};
ghost use Rattle.std.specs.List.{position};
ghost use Rattle.stp_io.specs.Named.{file_of, put_at};
ghost use Rattle.stp_io.specs.declared.named.NamedFile.{NamedFile as File};

use std::alloc::Global;
use std::marker::Model;
use stp_base::{Memory, Text};

/// A file in memory with its name.
#[derive(Drop)]
pub struct NamedFile {
    name: Text,
    bytes: Text,
}

/// Files in memory, which contracts see as a list.
#[derive(Drop)]
pub struct NamedFiles {
    alloc: Global,
    list: Vec<NamedFile>,
}

impl Model for NamedFiles {
    ghost Value = { List File };

    ghost view = { λ f. f.list.items };
}

impl NamedFiles {
    /// No file.
    pub fn new(alloc: Global) -> NamedFiles
        ensures { result ≡ [] }
    {
        NamedFiles {
            alloc,
            list: Vec::new(alloc),
        }
    }

    /// The place of the file of a name.
    fn place(&self, name: &str) -> Option<usize>
        ensures { result ≡ position (λ f. bytes_eq f.name name.now) self.now }
    {
        self.list
            .iter()
            .position(|file| file.name.as_slice() == name.as_bytes())
    }

    /// The bytes of the file of a name.
    pub fn find(&self, name: &str) -> Option<&[u8]>
        ensures { option_copied result ≡ file_of self.now name.now }
    {
        let place = self.place(name)?;
        Some(self.list[place].bytes.as_slice())
    }

    /// Stores one file, in the place of one of this name.
    pub fn put(&mut self, name: &str, bytes: &[u8]) -> Result<(), Memory>
        ensures ok { OnOk result (file_of self.new ≡ put_at name.now (Some bytes.now) (file_of self.old)) }
        ensures err { OnErr result (self.new ≡ self.old) }
    {
        let bytes = text_of(self.alloc, bytes)?;
        match self.place(name) {
            Some(place) => self.list[place].bytes = bytes,
            None => {
                let name = text_of(self.alloc, name.as_bytes())?;
                self.list.push(NamedFile { name, bytes })?;
            }
        }
        Ok(())
    }
}

/// A text of these bytes.
fn text_of(alloc: Global, bytes: &[u8]) -> Result<Text, Memory>
    ensures { IfOk result (λ t. t ≡ bytes.now) }
{
    let mut text = Text::new(alloc);
    text.push(bytes)?;
    Ok(text)
}
