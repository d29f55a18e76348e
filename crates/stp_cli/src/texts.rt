//! The texts of a command's files.

ghost use Rattle.std.specs.Prelude.{◌≡◌, ◌≤◌, length};
ghost use Rattle.stp_base.specs.declared.limits.TheConstants.{MAX_FILE_BYTES};
ghost use Rattle.stp_cli.specs.Texts.{no_texts, with_text, AreShort};

use std::alloc::Global;
use stp_base::Text;
use stp_report::FileName;

/// The text of each file, empty where a command has no such file.
#[derive(Drop)]
pub struct Texts {
    pub domain: Text,
    pub problem: Text,
    pub plan: Text,
}

impl Texts {
    /// No text yet.
    pub fn new(alloc: Global) -> Texts
        ensures { result ≡ no_texts }
    {
        Texts {
            domain: Text::new(alloc),
            problem: Text::new(alloc),
            plan: Text::new(alloc),
        }
    }

    /// Keeps the text of a file. Durations are listed in a word and not in a file.
    pub fn put(&mut self, role: FileName, text: Text)
        requires short { length text ≤ MAX_FILE_BYTES }
        requires all { AreShort self.old }
        ensures put { self.new ≡ with_text role text self.old }
        ensures short { AreShort self.new }
    {
        match role {
            FileName::Domain => self.domain = text,
            FileName::Problem => self.problem = text,
            FileName::Plan => self.plan = text,
            FileName::Durations => {}
            FileName::Task => {}
        }
    }
}
