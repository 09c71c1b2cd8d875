//! Tables that are read place by place.

ghost use Rattle.std.specs.Prelude.{◌≡◌, ◌<◌, List, length, slice_index_or};
ghost use Rattle.field_ext.specs.Field.{K, zero_k};
ghost use Rattle.table_parts.specs.Columns.{zeros};

use field_ext::Ext;

/// A table that is read place by place, whether it is kept or not.
pub(crate) trait Reading {
    ghost items: { Self → List K };

    /// The value at place `i`.
    fn at(&self, i: usize) -> Ext
        requires { i < length (items self.now) }
        ensures { result ≡ slice_index_or (items self.now) i zero_k };
}

/// A table that is kept.
#[derive(Drop)]
pub(crate) struct KeptTable<'a> {
    pub(crate) values: &'a [Ext],
}

/// A table of zeros, which isn't kept.
#[derive(Drop)]
pub(crate) struct ZeroTable {
    pub(crate) count: usize,
}

impl<'a> Reading for KeptTable<'a> {
    ghost items = { λ table. table.values.now };

    #[inline]
    fn at(&self, i: usize) -> Ext {
        self.values[i]
    }
}

impl Reading for ZeroTable {
    ghost items = { λ table. zeros table.count };

    #[inline]
    fn at(&self, _i: usize) -> Ext {
        Ext::zero()
    }
}
