//! The constants of a run.

ghost use Rattle.std.specs.Prelude.{◌≡◌, OnOk, OnErr};
ghost use Rattle.std.specs.Ordering.{nat_cmp};
ghost use Rattle.std.specs.FinSet as set;
ghost use Rattle.std.specs.Coded.{coded_ℕ};

use std::alloc::{AllocError, Global};
use std::collections::BTreeSet;
use std::marker::Model;

/// The distinct constants that have a node.
#[derive(Drop)]
pub struct Constants {
    values: BTreeSet<u32>,
}

impl Model for Constants {
    ghost Value = { set.FinSet nat_cmp };

    ghost coded = { set.code coded_ℕ };

    ghost view = { λ c. set.from_list c.values.keys };
}

impl Constants {
    pub fn new(alloc: Global) -> Constants
        ensures { result ≡ set.empty }
    {
        Constants {
            values: BTreeSet::new(alloc),
        }
    }

    pub fn contains(&self, value: u32) -> bool
        ensures { result ≡ set.contains self.now value }
    {
        self.values.contains(&value)
    }

    pub fn insert(&mut self, value: u32) -> Result<(), AllocError>
        ensures inserted { OnOk result (self.new ≡ set.insert self.old value) }
        ensures err { OnErr result (self.new ≡ self.old) }
    {
        self.values.insert(value)?;
        Ok(())
    }
}
