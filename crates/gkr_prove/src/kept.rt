//! Where a claim is, kept between two layers.

ghost use Rattle.std.specs.Prelude.{◌≡◌, IfOk, length};
ghost use Rattle.field_ext.specs.Field.{k_ops};
ghost use Rattle.gkr_layers.specs.Forms.{place_between};
ghost use Rattle.gkr_layers.specs.Places.Place.{At};
ghost use Rattle.gkr_layers.specs.ClaimPlace.{place_of};
ghost use Rattle.gkr_layers.specs.Sumcheck.{point_between};
ghost use Rattle.gkr_prove.specs.Kept.{kept_place};

use field_ext::Ext;
use gkr_layers::ClaimPlace;
use line_reduce::point_at;
use proof_wire::ProofForm;
use std::alloc::{AllocError, Global};

/// The place of a claim between two layers: a point, or two with the weight of the second.
#[derive(Drop)]
pub struct KeptPlace {
    pub(crate) both: bool,
    pub(crate) first: Vec<Ext>,
    pub(crate) second: Vec<Ext>,
    pub(crate) weight: Ext,
}

impl KeptPlace {
    /// A point.
    pub(crate) fn at(alloc: Global, point: Vec<Ext>) -> KeptPlace
        ensures { kept_place result ≡ At point.items }
    {
        KeptPlace {
            both: false,
            first: point,
            second: Vec::new(alloc),
            weight: Ext::zero(),
        }
    }

    /// The place between the points of the two operands, for the challenge after a last message of this form. Err only where
    /// no memory is found.
    pub fn between(
        alloc: Global,
        form: ProofForm,
        left: &[Ext],
        right: &[Ext],
        challenge: Ext,
    ) -> Result<KeptPlace, AllocError>
        requires { length right.now ≡ length left.now }
        ensures { IfOk result (λ kept. kept_place kept ≡ place_between k_ops form left.now right.now
            challenge) }
    {
        match form {
            ProofForm::Line => {
                let point = line_point(alloc, left, right, challenge)?;
                Ok(KeptPlace::at(alloc, point))
            }
            ProofForm::Pair => {
                let first = Vec::from_slice(alloc, left)?;
                let second = Vec::from_slice(alloc, right)?;
                Ok(KeptPlace {
                    both: true,
                    first,
                    second,
                    weight: challenge,
                })
            }
        }
    }

    /// The same place, lent.
    pub fn claim_place(&self) -> ClaimPlace<'_>
        ensures { place_of result ≡ kept_place self.now }
    {
        if self.both {
            ClaimPlace::Both(self.first.as_slice(), self.second.as_slice(), self.weight)
        } else {
            ClaimPlace::One(self.first.as_slice())
        }
    }
}

/// The point at `t` of the line from `left`, at 0, to `right`, at 1.
fn line_point(alloc: Global, left: &[Ext], right: &[Ext], t: Ext) -> Result<Vec<Ext>, AllocError>
    requires { length right.now ≡ length left.now }
    ensures { IfOk result (λ point. point.items ≡ point_between k_ops left.now right.now t) }
{
    let mut point = vec![in alloc; Ext::zero(); left.len()]?;
    point_at(left, right, t, &mut point);
    Ok(point)
}
