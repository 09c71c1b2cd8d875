//! The line by parts of the table, each of which can be worked by itself.

ghost use Rattle.std.specs.Prelude.{◌≡◌, ◌≤◌, ◌<◌, ◌+◌, length, map, take, MatchOption, IfOk};
ghost use Rattle.field_ext.specs.Field.{k_ops, embed_k};
ghost use Rattle.field_ext.specs.Polynomial.{coefficients};
ghost use Rattle.gkr_layers.specs.Sumcheck.{line_polynomial};
ghost use Rattle.line_reduce.specs.Parts.{most_coordinates, part_coordinates, parts_of, worked_part, part_lines};

use crate::blocks::fill_line;
use crate::rows::fold_by_line;
use field_ext::{Ext, Fp};
use mle_table::BaseTable;
use std::alloc::{AllocError, Global};
use std::marker::Model;

/// A part is for so many coordinates, the first ones.
const COORDINATES: usize = 11;

const VALUES: usize = 2048;

/// So many of them at once.
const KNOWN: usize = 4;

/// How many coefficients the line of a part has.
pub const PART_COEFFICIENTS: usize = 12;

const WEIGHTS: usize = 80;

const ROWS: usize = 640;

/// A part of a line, in buffers of its own: the line's points for the coordinates of a part, and the coefficients of the part's
/// line once it is worked.
#[derive(Drop)]
pub struct LinePart {
    b: Vec<Ext>,
    c: Vec<Ext>,
    weights: Vec<Ext>,
    rows: Vec<Ext>,
}

impl Model for LinePart {
    ghost use Rattle.std.specs.Prelude.{◌≡◌, take, vec_len};
    ghost use Rattle.line_reduce.specs.Parts.{PartOfLine, part_coordinates, part_coefficients, part_weights, part_rows};

    ghost Value = { PartOfLine };

    ghost view = { λ p. record {
      b = p.b.items;
      c = p.c.items;
      line = take part_coefficients p.rows.items;
    } };

    ghost invariant = { λ p. (vec_len p.b ≡ part_coordinates) × (vec_len p.c ≡ part_coordinates)
        × (vec_len p.weights ≡ part_weights) × (vec_len p.rows ≡ part_rows) };
}

impl LinePart {
    /// The buffers of a part. Its points and its line mean nothing yet: `aim` and `work` set them. Err only where no memory is
    /// found; no later call takes any.
    pub fn new(alloc: Global) -> Result<LinePart, AllocError> {
        Ok(LinePart {
            b: vec![in alloc; Ext::zero(); COORDINATES]?,
            c: vec![in alloc; Ext::zero(); COORDINATES]?,
            weights: vec![in alloc; Ext::zero(); WEIGHTS]?,
            rows: vec![in alloc; Ext::zero(); ROWS]?,
        })
    }

    /// Takes the first coordinates of the line's points.
    pub fn aim(&mut self, b: &[Ext], c: &[Ext])
        requires start { part_coordinates ≤ length b.now }
        requires end { part_coordinates ≤ length c.now }
        ensures { self.new ≡ record self.old {
          b = take part_coordinates b.now;
          c = take part_coordinates c.now;
        } }
    {
        self.b.copy_from_slice(b.split_at(COORDINATES).0);
        self.c.copy_from_slice(c.split_at(COORDINATES).0);
    }

    /// Works part `k` of a table of the base field. Where the table has no such part, nothing changes.
    pub fn work(&mut self, values: &[Fp], k: u32)
        ensures { self.new ≡ worked_part (map embed_k values.now) k self.old }
    {
        let from = k as usize * VALUES;
        if values.len() < from + VALUES {
            return;
        }
        let block = values.split_at(from).1.split_at(VALUES).0;
        fill_line(
            block,
            KNOWN,
            &self.b,
            &self.c,
            &mut self.weights,
            &mut self.rows,
        );
    }

    /// The coefficients of the part's line, constant first.
    pub fn line(&self) -> &[Ext]
        ensures { result.now ≡ self.now.line }
    {
        self.rows.split_at(PART_COEFFICIENTS).0
    }
}

/// How many parts the line of a table of `2^k` values has, if any.
pub fn part_count(k: u32) -> Option<usize>
    requires { k ≤ most_coordinates }
    ensures { MatchOption result (k < part_coordinates)
        (λ n. (part_coordinates ≤ k) × (n ≡ parts_of k)) }
{
    let more = (k as usize).checked_sub(COORDINATES)?;
    Some(1usize << more)
}

/// The line from `b`, at 0, to `c`, at 1, as `line_poly` gives it, from the lines of all parts of the table, one after another. It
/// takes no memory.
pub fn line_of_parts(table: &BaseTable, lines: Vec<Ext>, b: &[Ext], c: &[Ext]) -> Vec<Ext>
    requires least { part_coordinates ≤ table.now.k }
    requires most { table.now.k ≤ most_coordinates }
    requires start { length b.now ≡ table.now.k }
    requires end { length c.now ≡ table.now.k }
    requires lines { lines.items ≡ part_lines table.now.items
        (take part_coordinates b.now) (take part_coordinates c.now) (parts_of table.now.k) }
    ensures { result.items ≡ coefficients k_ops (table.now.k + 1)
        (line_polynomial k_ops table.now.items b.now c.now) }
{
    let _ = table;
    let mut rows = lines;
    fold_by_line(&mut rows, COORDINATES, b, c);
    rows.truncate(b.len() + 1);
    rows
}
