// The members so far, each with the first line that had its name.
ghost use Rattle.std.specs.Prelude.{◌≡◌, List, []};
ghost use Rattle.keys.specs.Name.{identity_of};
ghost use Rattle.roster.specs.Entries.{Entry, different};
ghost use Rattle.roster.specs.Members.{members_in, Stands, Enters};

use keys::Name;
use std::alloc::{AllocError, Global};
use std::collections::BTreeMap;
use std::marker::Model;

#[derive(Drop)]
pub struct Members {
    heap: Global,
    // by the identities of their names
    first_lines: BTreeMap<Vec<u32>, u64>,
}

impl Model for Members {
    ghost Value = { List Entry };

    ghost view = { λ m. members_in m.first_lines };
}

impl Members {
    pub fn new(heap: Global) -> Members
        ensures { Stands result [] }
    {
        Members {
            heap,
            first_lines: BTreeMap::new(heap),
        }
    }

    // Enters the name of a line, and answers with the first line that had it.
    pub(crate) fn enter(&mut self, name: &Name, line: u64) -> Result<u64, AllocError>
        ensures { Enters self.old (identity_of name.now) line self.new result }
    {
        if let Some(first) = self.first_lines.get(name.identity()) {
            return Ok(*first);
        }
        let identity = Vec::from_slice(self.heap, name.identity())?;
        self.first_lines.insert(identity, line)?;
        Ok(line)
    }

    // How many names that differ were entered.
    pub fn count(&self) -> u64
        ensures { (entries : List Entry) → Stands self.now entries → result ≡ different entries }
    {
        self.first_lines.len() as u64
    }
}
