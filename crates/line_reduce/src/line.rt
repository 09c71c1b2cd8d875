//! The polynomial of a line.

ghost use Rattle.std.specs.Prelude.{◌≡◌, ◌≤◌, ◌+◌, ◌^◌, length, map, vec_len, IfOk};
ghost use Rattle.field_ext.specs.Field.{k_ops, embed_k};
ghost use Rattle.field_ext.specs.Polynomial.{value_at, coefficients};
ghost use Rattle.gkr_layers.specs.Sumcheck.{line_polynomial};
ghost use Rattle.line_reduce.specs.Parts.{most_coordinates};
ghost use Rattle.line_reduce.specs.Rows.{most_known};

use crate::blocks::fill_line;
use crate::rows::fold_by_line;
use field_ext::{Ext, Fp};
use mle_table::BaseTable;
use poly_roots::Poly;
use std::alloc::{AllocError, Global};

/// How many coordinates are bound in a block at once at most.
const MOST_KNOWN: usize = 6;

/// The restriction of a table's extension to the line from `b`, at 0, to `c`, at 1: one coefficient more than the table
/// has coordinates, constant first. Err only where no memory is found.
pub fn line_poly(alloc: Global, table: &BaseTable, b: &[Ext], c: &[Ext]) -> Result<Poly, AllocError>
    requires most { table.now.k ≤ most_coordinates }
    requires start { length b.now ≡ table.now.k }
    requires end { length c.now ≡ table.now.k }
    ensures { IfOk result (λ line. line ≡ coefficients k_ops (table.now.k + 1)
        (line_polynomial k_ops table.now.items b.now c.now)) }
{
    if b.len() >= 8 {
        let known = (b.len() / 2 - 2).min(MOST_KNOWN);
        Ok(Poly::of_coeffs(by_blocks(alloc, table.values(), known, b, c)?))
    } else {
        let rows = table.elements(alloc)?;
        Ok(Poly::of_coeffs(by_rows(rows, b, c)))
    }
}

/// The claim at `t`, where this polynomial is claimed for the line.
pub fn claim_at(line: &Poly, t: Ext) -> Ext
    ensures { result ≡ value_at k_ops line.now t }
{
    line.value_at(t)
}

/// A table as rows of one coefficient, folded by the line's polynomials one after another to one row.
fn by_rows(rows: Vec<Ext>, b: &[Ext], c: &[Ext]) -> Vec<Ext>
    requires most { length b.now ≤ most_coordinates }
    requires end { length c.now ≡ length b.now }
    requires size { length rows.items ≡ 2 ^ length b.now }
    ensures { result.items ≡ coefficients k_ops (length b.now + 1)
        (line_polynomial k_ops rows.items b.now c.now) }
{
    let mut line = rows;
    fold_by_line(&mut line, 0, b, c);
    line.truncate(b.len() + 1);
    line
}

/// The same from numbers of the base field, where the first coordinates are bound in each block of values at once.
fn by_blocks(
    alloc: Global,
    values: &[Fp],
    known: usize,
    b: &[Ext],
    c: &[Ext],
) -> Result<Vec<Ext>, AllocError>
    requires most { length b.now ≤ most_coordinates }
    requires end { length c.now ≡ length b.now }
    requires size { length values.now ≡ 2 ^ length b.now }
    requires some { 2 ≤ known }
    requires few { known ≤ most_known }
    requires known { known ≤ length b.now }
    ensures { IfOk result (λ line. line.items ≡ coefficients k_ops (length b.now + 1)
        (line_polynomial k_ops (map embed_k values.now) b.now c.now)) }
{
    let width = known + 1;
    let mut weights = vec![in alloc; Ext::zero(); (1usize << known) * width]?;
    let mut rows = vec![in alloc; Ext::zero(); (1usize << (b.len() - known)) * width]?;
    fill_line(values, known, b, c, &mut weights, &mut rows);
    rows.truncate(b.len() + 1);
    Ok(rows)
}
