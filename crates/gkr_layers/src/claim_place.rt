//! Where a claim is, as the prover and the verifier keep it.

use field_ext::Ext;

/// Where the claim on a layer is: at a point, or at a first point with weight 1 and at a second with the weight given.
#[derive(Clone, Copy)]
pub enum ClaimPlace<'a> {
    One(&'a [Ext]),
    Both(&'a [Ext], &'a [Ext], Ext),
}
